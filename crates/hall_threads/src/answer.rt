use hall_slots::Event;
use play_rules::{RunEnd, Stop};
use worker_entry::EventRefused;

/// What a seat was answered at a try.
#[derive(Clone, Copy, PartialEq, Eq, Debug)]
pub(crate) enum Answer {
    /// It did this event.
    Did(Event),
    /// It found this stop.
    Found(Stop),
    /// The run has ended so.
    Over(RunEnd),
    /// Another seat holds a slot that it needs, or there is nothing to steal.
    Refused(EventRefused),
}
