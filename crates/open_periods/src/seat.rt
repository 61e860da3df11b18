use crate::Period;
use deque_list::DequeId;

/// What a worker has that is not idle: the deque that it owns, and the period that is open for it.
#[derive(PartialEq, Eq, Debug, Drop)]
pub struct Seat {
    pub deque: DequeId,
    pub period: Period,
}
