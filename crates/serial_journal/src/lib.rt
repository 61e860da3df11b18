//! What is written down of a depth-first run: its actions with names and weights, births, the peak.
//!
//! A [`Journal`] takes the actions of a run one after another, and keeps the peak of the words in use. With the finish and the output of the
//! run it gives the [`Serial`]: these, the actions with their names and weights, the births of the threads and the peak. It rests on the
//! definition of the depth-first run, on names of threads and actions, and on lists.
//!
//! Its one theorem: what a journal has written down is the actions that it took, and it takes an action exactly if its limit is not reached.
//!
//! # Why
//!
//! - The journal of a run is a crate of its own, so that each machine that runs a program writes down its actions by the same calls and the same
//!   clauses.
//! - The journal takes actions alone: the lines and the first fault are those of the root's result, which its caller hands in at the end.
//! - The journal counts words in use in 63 bits: more, which no memory holds, is "not enough memory". So no clause needs a bound on what a
//!   program holds.
//! - The threads of a depth-first run are all born in period 1; the births are in the order of the Forks.
#![tactic(auto)]

mod action;
mod journal;
mod serial;
mod serial_stop;

pub use action::{Action, Actions};
pub use journal::Journal;
pub use serial::Serial;
pub use serial_stop::SerialStop;
