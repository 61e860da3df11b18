/// What stops a run before it ends. After it nothing more is done.
#[derive(Clone, Copy, PartialEq, Eq, Debug)]
pub enum Stop {
    /// `asked` words do not fit beside the `live` words in use.
    ArenaFull { live: u64, asked: u64 },
    /// One more deque than is allowed would stand in the list.
    DequesFull { deques: u32 },
    /// One more action than is allowed would be done.
    StepsSpent { limit: u32 },
    /// There is not enough memory.
    OutOfMemory,
}
