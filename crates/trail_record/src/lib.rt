//! Records a play, event by event.
//!
//! [`record_play`] lets the workers of a core run to the end, as [`dfd_core::play`] does, and writes down each event as a trail tells it:
//! the worker and what it did, and of a theft the place of the deque that was robbed.
//!
//! It stands on the core (`dfd_core`), which it hands on to its callers, and on what a trail is (`trail_meaning`, `trail_check`). Its theorem: the events that are recorded
//! are those of the play that the words pick, so the trail of a play that finishes is good (`recorded_plays_are_good`).
#![tactic(auto)]

mod laws;
mod recorded;
mod recorder;

pub use dfd_core::{Choices, Core, ListChoices, OutputFail, RunEnd, Stepped, play};
pub use laws::recorded_plays_are_good;
pub use recorded::Recorded;
pub use recorder::record_play;
