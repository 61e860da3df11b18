/// What an action does.
#[derive(Clone, Copy, PartialEq, Eq, Debug)]
pub enum Kind {
    /// It starts a child, which runs before what the thread does next.
    Fork,
    /// It takes in the result of the newest open child.
    Join,
    /// It takes a block of words.
    Alloc,
    /// It gives a block back.
    Release,
    /// It is a leaf of the tree that stands before a large allocation, and does nothing.
    Dummy,
    /// It is the last action of its thread.
    End,
    /// It ends the thread's work by a fault, and gives back all that the thread holds.
    Fault,
}
