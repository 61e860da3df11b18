use crate::shell::Shell;
use std::error::Error;
use std::fmt;

/// Why there is no pool of the words asked for.
#[derive(Debug, Clone, Copy, PartialEq, Eq)]
pub enum PoolError {
    /// The words are no whole pieces, or there are none.
    NotWhole,
    /// The words are whole pieces, but more than [`MOST_WORDS`](language_limits::MOST_WORDS).
    TooLarge,
    /// There is no memory for the pieces.
    OutOfMemory,
}

impl fmt::Display for PoolError {
    fn fmt<W: fmt::Write>(&self, f: &mut fmt::Formatter<W>) -> fmt::Result {
        match self {
            PoolError::NotWhole => write!(f, "the words of the pool are no whole pieces"),
            PoolError::TooLarge => write!(f, "the words of the pool are too many"),
            PoolError::OutOfMemory => write!(f, "out of memory"),
        }
    }
}

impl Error for PoolError {}

/// A block does not fit beside those that are out.
#[derive(Debug, Drop)]
pub struct Full {
    /// How many words are out.
    pub live: u64,
    /// How many words the block would have taken.
    pub asked: u64,
    /// The shell that was handed in.
    pub shell: Shell,
}

impl fmt::Display for Full {
    fn fmt<W: fmt::Write>(&self, f: &mut fmt::Formatter<W>) -> fmt::Result {
        let live = self.live;
        let asked = self.asked;
        write!(f, "{asked} words do not fit beside {live} that are out")
    }
}

impl Error for Full {}

/// A place that is not below the length of the block.
#[derive(Debug, Clone, Copy, PartialEq, Eq)]
pub struct OutOfRange;

impl fmt::Display for OutOfRange {
    fn fmt<W: fmt::Write>(&self, f: &mut fmt::Formatter<W>) -> fmt::Result {
        write!(f, "the place is not below the length of the block")
    }
}

impl Error for OutOfRange {}

/// A place at which the block can't be cut: within a piece, or above the length of the block.
#[derive(Debug, Clone, Copy, PartialEq, Eq)]
pub struct SplitRefused;

impl fmt::Display for SplitRefused {
    fn fmt<W: fmt::Write>(&self, f: &mut fmt::Formatter<W>) -> fmt::Result {
        write!(f, "the block can't be cut at this place")
    }
}

impl Error for SplitRefused {}
