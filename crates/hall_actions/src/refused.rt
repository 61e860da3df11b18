//! Why the call of an owner fails.

use play_rules::{RunEnd, Stop};
use turn_table::Held;

/// Why an owner did nothing.
#[derive(Clone, Copy, PartialEq, Eq, Debug)]
pub enum ActRefused {
    /// Another seat holds a slot that the event needs.
    Busy(Held),
    /// The run has ended so.
    Over(RunEnd),
    /// The seat found this stop.
    Stopped(Stop),
}
