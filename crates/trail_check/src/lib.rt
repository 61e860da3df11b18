//! What it means that a trail is good, and the check of a recorded play against its program.
//!
//! `Follows` (`specs/Following.antt`) says how the events of a trail lead from moment to moment: each is an event that the machine allows its
//! worker, and after it the words in use, the actions done and the deques are within the limits. `IsGood` (`specs/Good.antt`) says that they
//! lead from the opening moment to the End of the root, and `IsVerdict` (`specs/Verdicts.antt`) what there is to say of a trail: accepted, a bad
//! event, not ended, or wrong numbers. A worked trail and its four verdicts are in `proofs/Examples.antt`.
//!
//! [`verify`] runs the program depth-first, and then follows the events of a [`Trail`](trail_meaning::Trail) over the list of actions of
//! that run. It returns the number of actions of a trail that is accepted, or what is wrong with it. It uses no core, no labels and no books: a
//! [`Checker`] knows a thread by the place of its next action in the list, and [`partners`] gives the place of the End for each Fork and each
//! Join. What is done is a bit for each place, and a busy worker has the words that its period has used. Beside the depth-first run it takes
//! time in proportion to the number of events, and for each steal to the number of deques.
//!
//! It uses the depth-first run of `serial_meaning`, the deques of `deque_list`, the machine and how it is computed (`deque_machine`).
//! Its theorem: [`verify`] refuses a run that is longer than the trail allows, and answers any other trail with the one verdict
//! on it (`Checks` in `specs/Checking.antt`), or says that there is not enough memory. An answer other than the last is the only one
//! ([`check_laws::one_answer`]), and each trail has one ([`check_laws::an_answer`]). The laws of good trails are in [`good_laws`], those of places
//! in [`place_laws`]; after each event of an accepted trail the words in use are at most the depth-first peak, and two quotas for each period that
//! is ahead ([`check_laws::accepted_trails_are_bounded`]).
//!
//! # Why
//!
//! - **The victim of a steal is asked for before the step** (`Core::victim`), since a trail has the place that it has then. A step picks it
//!   once more: each is one look at the deques in reach.
//! - **Whose turn it is has a function of its own** (`draw_turn`), which draws the words and changes no core. `play` and the recorder both step
//!   the worker that it names.
//! - **A turn that meets a stop is no event**, so a play that a limit stops has no trail: `trail` writes then what `play` writes.
//! - **`trail` allows at most 400,000 actions**, by its own range of `--steps`. Its trail then has at most 2,000,128 events, and its text fewer
//!   than 33,554,432 bytes.
//! - **`verify` asks in this order**: is it a trail, is its source accepted, is the depth-first run short enough, is each event allowed, has
//!   the root ended, are the numbers right.
//! - **The events of a finished play are good only if at least one deque is allowed** (`0 < limits.deques`). With no deque allowed a play can
//!   still finish: the opening moment has one deque, and taking it over meets no stop. A trail allows at least one deque (`HasTrailRanges`), so
//!   each recorded play meets the condition.
//! - **`verify` is given a program, and does not read the source of the trail.** Its clause is about that program. Its caller has read and
//!   checked the source, whose refusals come before those of `verify`.
//! - **The depth-first run has the trail's limit of actions.** So a run that is too long is known before an event is read, and no event is
//!   refused for that limit: a list has no more actions than the trail allows.
#![tactic(auto)]

mod charges;
pub mod check_laws;
mod checker;
mod deque_moves;
mod following;
pub mod good_laws;
mod judging;
mod pairing;
pub mod place_laws;
mod places;
mod seat;
mod step;
mod tally;
mod terms;
mod verify_fail;
mod verifying;
mod writing;

pub use checker::Checker;
pub use places::partners;
pub use seat::Seat;
pub use tally::Tally;
pub use terms::Terms;
pub use verify_fail::VerifyFail;
pub use verifying::verify;
