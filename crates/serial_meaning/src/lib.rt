//! The depth-first run of a program.
//!
//! [`depth_first`] runs a checked program so that each forked child runs to its end before its parent goes on, and gives what the run
//! printed, how it finished, all its actions with their names and weights, the births of its threads, and the peak of its live words. It is
//! a driver over the threads of `thread_frames`: the thread that runs, its parents in a stack, a pool that grows as the run needs, and the
//! journal of the run. So calls and forks take none of the caller's stack.
//!
//! Its one theorem is that what it gives is what the definition says, and that it stops exactly where the run has more actions than were
//! allowed, or where memory is wanting. It rests on two facts: what a thread does next stands in the depth-first list under its label and
//! index, whatever the other threads have done; and the next place of the list is the one that a driver comes to which runs each child
//! before its parent (`next_places` of `depth_first_list`).
//!
//! # Why
//!
//! - **What a program does is computed once**, by the threads. The depth-first run is a driver of them: a stack of parents, and one call after
//!   another on the top one. Its own proof is that this order is the depth-first list, and it is the same whatever the statements are.
//! - **The order is a law of lists**, `next_places` of `depth_first_list`. A thread at its point tells that its next action stands in the list
//!   under its label and index, at some place; the law says what stands at the next place, so the driver is always there.
//! - **Two facts go from action to action.** `Stand` speaks of no program: each thread is at its point, each that waits has the one above it as
//!   its only child that is not delivered, and the words that are out of the pool are theirs. `Write` is of a program whose table it is: the
//!   first actions of its list are written down, and the top thread does the next one.
//! - **The pool grows as the run needs**, so a run is refused for want of memory alone, however many words are live. Room is asked for before
//!   an Alloc and a Fork, so neither is refused.
//! - **The words of a fault are those that went back to the pool**: a thread tells no caller what it holds.
//! - **The output and the finish are those of the root's result**, so the journal takes actions alone from the run.
//! - **The limits of a run** (10,000 open calls, 1,000,000 turns, 256 forks) are those of `language_limits`, put together in
//!   `specs/Settings.antt`.
#![tactic(auto)]

mod alone;
mod ends;
mod forks;
mod naming;
mod run;
mod running;
mod steps;

pub use running::depth_first;
pub use serial_journal::{Action, Actions, Serial, SerialStop};
