use dag_order::{FaultAt, ThreadId};

/// The next action of a thread. Words are whole pieces.
#[derive(Clone, Copy, PartialEq, Eq, Debug)]
pub enum Next {
    /// A child is forked, with a record block of 16 words.
    Fork,
    /// The newest open child, of this id, is joined.
    Join { child: ThreadId },
    /// A block of so many words is allocated.
    Alloc { words: u32 },
    /// A block of so many words goes back.
    Release { words: u32 },
    /// A dummy before a large allocation.
    Dummy,
    /// The thread ends.
    End,
    /// A fault ends the work of the thread.
    Fault(FaultAt),
}
