use crate::trail_event::TrailEvent;
use crate::trail_numbers::TrailNumbers;
use containers::BoundedList;

/// The events of a play, first to last.
pub type Events = BoundedList<TrailEvent>;

/// One recorded play: its setting, its source, its events and the numbers that it ended with.
#[derive(PartialEq, Eq, Debug, Drop)]
pub struct Trail {
    /// The quota, in words.
    pub k: u32,
    /// The number of workers.
    pub p: u32,
    /// The most words in use at once, in words.
    pub arena: u32,
    /// The most actions of the play.
    pub steps: u32,
    /// The most deques at once.
    pub deques: u32,
    /// The bytes of the source.
    pub source: Vec<u8>,
    pub events: Events,
    pub numbers: TrailNumbers,
}
