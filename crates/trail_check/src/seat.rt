use deque_list::DequeId;

/// What a busy worker has.
#[derive(Clone, Copy, PartialEq, Eq, Debug)]
pub struct Seat {
    /// Its deque.
    pub deque: DequeId,
    /// What its period has used of the quota, in words.
    pub used: u32,
}
