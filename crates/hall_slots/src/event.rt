use dag_order::{ActionId, ThreadId};
use deque_list::DequeId;
use play_rules::RunEnd;

/// What a seat of a hall did.
#[derive(Clone, Copy, PartialEq, Eq, Debug)]
pub enum Event {
    /// It stole, and owns this deque from now on, in the period of this number.
    Stole { deque: DequeId, period: u32 },
    /// Its top thread did this action.
    Did(ActionId),
    /// Its top thread, of this id, waits for a child, and its deque is gone.
    Suspended(ThreadId),
    /// It left this deque in the list without an owner.
    GaveUp(DequeId),
    /// It kept the stop that it had found, or found this end kept.
    Halted(RunEnd),
}
