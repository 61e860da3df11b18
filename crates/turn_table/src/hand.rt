//! What a seat holds.
use crate::look::Look;
use std::collections::LinkedList;

/// What a seat holds, and what it was told. No value of it is made: it stands in contracts alone.
pub struct Hand<V, N> {
    /// False once the seat was joined into another: the hand is then empty, and its note blank.
    pub seated: bool,
    /// The slots that the seat holds, the one taken last first, each with the value that it shows.
    pub holds: LinkedList<(u32, V)>,
    /// What the caller keeps here, by the picks of its calls.
    pub note: N,
    /// The answers to this seat's takes and counts, the oldest first.
    pub looks: LinkedList<Look<V>>,
}
