/// Why a thread cannot go on.
#[derive(Clone, Copy, PartialEq, Eq, Debug)]
pub enum FaultKind {
    /// A place outside a block.
    Index = 1,
    /// A division by zero.
    Divide = 2,
    /// A number of words that no block can have.
    Size = 3,
    /// A block cut outside it, or where no piece of 16 words begins.
    Split = 4,
    /// More open calls or nested forks than are allowed.
    Depth = 5,
    /// More loop rounds and calls of one thread than are allowed.
    Turns = 6,
}

/// A fault, and the line of the statement that it came at, from 1.
#[derive(Clone, Copy, PartialEq, Eq, Debug)]
pub struct FaultAt {
    pub kind: FaultKind,
    pub line: u32,
}
