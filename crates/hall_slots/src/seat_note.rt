use crate::event::Event;
use deque_list::DequeId;
use play_rules::{RunEnd, Stop};
use std::collections::LinkedList;

/// What a seat notes. No value of it is made: it is in contracts alone.
pub struct SeatNote {
    pub worker: u32,
    /// Its places. It has none once it was joined into another seat.
    pub places: u32,
    /// Whether it has left.
    pub left: bool,
    /// The deque that it owns, if any.
    pub deque: Option<DequeId>,
    /// The stop that it found, if any.
    pub found: Option<Stop>,
    /// The end that it was answered, if any.
    pub answered: Option<RunEnd>,
    /// Whether it holds a count below the limit, and its action is not decided.
    pub counting: bool,
    /// Whether it has given up a deque where the rules did not ask for it.
    pub yielded: bool,
    /// The worker for whom it enters, whom the list names and who has no seat yet.
    pub enters: Option<u32>,
    /// Its events, the oldest first.
    pub mine: LinkedList<Event>,
}
