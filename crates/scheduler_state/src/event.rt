use dag_order::{ActionId, ThreadId};
use deque_list::DequeId;

/// What a worker did in one step.
#[derive(Clone, Copy, PartialEq, Eq, Debug)]
pub enum Event {
    /// It stole, and owns this deque from now on, in the period of this number.
    Stole { deque: DequeId, period: u32 },
    /// Its top thread did this action.
    Acted(ActionId),
    /// Its top thread, of this id, waits for a child, and its deque left the list.
    Suspended(ThreadId),
    /// It left this deque in the list without an owner.
    GaveUp(DequeId),
}
