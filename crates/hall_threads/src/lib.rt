//! Whole runs in a hall, with a thread for each worker.
//!
//! A worker of a hall has a seat and the words by which it picks its victims ([`HallWorker`]). Each try of it is one call of its seat: it keeps
//! the stop that it found, acts if it owns a deque, and otherwise steals. The workers of a run enter one after the other, work in threads of
//! their own until the run has ended for each, and leave into the last seat, which closes the hall ([`run_in_threads`]). What is left of the run
//! is told as a report, or as the stop that it met ([`Ran`]). A caller that lends a thread for a while lets a worker try a bounded number of
//! times, without ever waiting ([`work_some`]).
//!
//! It uses the calls of a seat (`worker_entry`), which it hands on, and the loops of workers (`work_loop`). Its theorem: whatever the threads do
//! at what time, the report is that of a run of the machine from the opening moment to the End of the root, without a free give up, and its lines
//! and its finish are those of the depth-first run; and a stop has its cause on the way of such a run. A worker whose loop returns was answered
//! the end that it returns. Of a bounded number of tries each is such a call, and what is returned is how the last one ended. That a run ends is
//! not claimed.
//!
//! # Why
//!
//! - **Before each try of an owner its top thread goes on for 1,000 turns of loops and calls at most** (`Hall::step_on`, `is_on_its_way`), and where its next action
//!   has not come, the lane is free for a while. `act` lets the thread go all the way with the lane held; alone it would run two long branches
//!   of a `par` one after the other, since the lane could be robbed only between two actions of its owner. The call does no event, so what a
//!   hall shows, `act` and its contract are as they are without it. It is a call of its own and not a part of `act`, whose answers would then
//!   have one more. The price is one lane more to take and put back for each event.
//! - **A try of a worker is one call of its seat**, but for these steps. A stop that the seat found is kept by the next try, and not by the one
//!   that found it: the list may be held by another seat then, and the loop tries again.
//! - **The program stands beside the hall, not in it**, and `work_loop` has a parameter for each. What workers in threads share has to be
//!   `Sync`, and the search shows that of the slots and of the program each for itself, but not of a struct that holds both.
//! - **A bounded number of tries is a call beside the loop** (`work_some`), not an option of it. The loop waits, so it needs leave to; the call
//!   returns at the first try that is refused, with the reason. Both make their tries by one function.
//! - **What threads may share is shown of one thing at a time**: `work_crew` sets the program in a function in which the table is still a
//!   parameter, and the hall in the function that calls it. With both in one call the search for `Sync` does not end.
//! - **The workers enter one after the other before the first of them works**, and leave after the last has stopped. A worker that is refused a
//!   slot then tries again: no other worker holds one for long, but that is not claimed.
//! - **Of two members the one that was answered a stop stays.** All are answered the same end, since a kept end is never replaced; but a
//!   contract of one seat does not say what another one was answered. With this order the seat that closes the hall was answered a finish only
//!   if all were, and then none of them has given a deque up.
//! - **Want of memory is no end that is reported**: a run that was stopped by it gives `AllocError`, as if the memory had been refused to the
//!   caller.
#![tactic(auto)]

mod answer;
mod bounded;
mod crew;
mod entering;
mod leaving;
mod ran;
mod running;
mod telling;
mod tries;
mod worker;

pub use bounded::{WorkSome, work_some};
pub use ran::Ran;
pub use running::run_in_threads;
pub use worker::HallWorker;
pub use worker_entry::{CloseRefused, Closing, EventRefused, Hall, LeaveRefused, ListHeld, Seat};
