//! What a trail is: one recorded play, which can be checked apart from the core that made it.
//!
//! A [`Trail`] has the setting of a play, the source that it ran, its events in order, and the numbers that it ended with. The
//! crate has these types, the ranges of their numbers (`specs/Ranges.antt`), and what contracts see of a trail
//! (`specs/Shown.antt`). It stands on `containers` and `language_limits`. It has no theorem; `trail_text` says which bytes are
//! a trail.
#![tactic(auto)]

mod trail;
mod trail_event;
mod trail_kind;
mod trail_numbers;

pub use trail::{Events, Trail};
pub use trail_event::TrailEvent;
pub use trail_kind::TrailKind;
pub use trail_numbers::TrailNumbers;
