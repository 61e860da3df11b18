use crate::seat::Seat;
use dag_order::Kind;

/// An action that a worker may do next.
#[derive(Clone, Copy, PartialEq, Eq, Debug)]
pub(crate) struct Step {
    pub(crate) worker: u32,
    /// The place of the action in the depth-first list.
    pub(crate) place: u32,
    pub(crate) kind: Kind,
    /// By how many words the words in use rise.
    pub(crate) change: i64,
    /// The worker's seat if it stays with its deque after the action.
    pub(crate) seat: Seat,
}
