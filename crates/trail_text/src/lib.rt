//! The text of a trail, written and read.
//!
//! [`trail_text`] writes a trail. [`read_trail`] returns the trail whose text some bytes are, or the first line that breaks the
//! form. The crate stands on `trail_meaning`, `containers`, `byte_cuts`, `language_limits` and the lemmas of `run_report` on
//! digits.
//!
//! Its theorem: what is written is the text of `specs/TrailText.antt`; what is read is the trail whose text the bytes are; other
//! bytes are refused at the place that `specs/Reading.antt` names; and each text is one trail's or is refused at one place, never
//! both ([`texts_have_one_reading`]).
//!
//! # Why
//!
//! - **Numbers in a trail have no leading zeros**, though options may have them. So a trail has one text.
//! - **A text of more than 33,554,432 bytes is refused there**, whatever its lines are. The length is tested before anything else is read.
//! - **The bytes of the source belong to the second line.** If they or their LF are missing, the place is that of the second line.
//! - **A worker that the first line does not have breaks its own line**, not the first one.
//! - A further line after `end`, or one more byte there, is refused at its first byte. A last line without LF is refused at its own first byte.
//! - **`trail_text` has no condition**: it writes whatever numbers a trail has. Reading what it wrote needs the ranges and the length.
//! - **`Shown` is what contracts see of a trail.** A `Trail` also has room and pointers, so two trails of one text may differ as Rust values.
//! - The reader of decimal numbers is that of `run_report`, written again, since there it is private. The lemmas of `run_report` prove both.
#![tactic(auto)]

mod ending;
mod event;
mod head;
mod laws;
mod numbers;
mod place;
mod reading;
mod source;
mod trail_fail;
mod writing;

pub use laws::texts_have_one_reading;
pub use reading::read_trail;
pub use trail_fail::TrailFail;
pub use writing::trail_text;
