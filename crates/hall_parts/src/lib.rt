//! What an owner's events do to the parts of a hall that its worker took out of their slots, and how each is decided by one put back.
//!
//! A worker of a hall takes the lane of its deque, with the period that runs there, and the pool or the list if the event needs them, does an
//! event of its top thread, and puts them back. From the first put back on each of them shows what it is to be, so the event is decided there,
//! and the seat notes it; then the others are put back.
//!
//! - [`do_fork`] and the calls beside it do an action to the lane, the period and the pool. [`suspend`], [`take_waiting`] and [`leave_result`] do
//!   to the list what an event asks where a thread waits for a child, is woken, or leaves its result. The list keeps what waits and the results
//!   under the ids of threads, in no order.
//! - [`put_all`], [`put_list_and_lane`], [`put_pool_and_lane`] and [`put_lane`] put sets of slots back. What the seat notes at the first of them
//!   is a [`Noting`]: an event, a stop that it found, or nothing new.
//! - [`laws`]: what an owner writes by any event leads from a running state to a running state, for each program that the key of the hall may be
//!   of, and leaves the parts sound: threads at their points, what waits and is kept under its id, lanes of deques that are gone empty. No thread
//!   waits for one under whose id nothing is kept.
//!
//! It uses the steps of a thread around its action (`thread_actions`), the running state (`hall_machine`), the events of seats as they are
//! interleaved (`hall_interleavings`) and the slots of a hall (`hall_slots`). Its theorem: each action writes into its parts what the law of the
//! hall asks of it, for each program and each hall in which the worker is at work with these parts; each put back keeps the law of the hall
//! between any two atomic steps, and the seat notes its event and holds nothing.
//!
//! # Why
//!
//! - **An action is written once more only where it touches its parts**: `thread_actions` does it to the thread and the pool; here the thread is
//!   put back on its lane, and the action noted in the period and the move in the pool. The clauses are the premises of `hall_machine` as they
//!   are.
//! - **A Join has two calls**, one with the pool and one without, since a hall takes the pool only where words are released. Which one it is,
//!   `join_releases` says before the action, and `would_release` if the result is in the list: nothing undoes that a result is handed over.
//! - **What a map keeps has no order**, so what an event takes out of the list is any of it. The steps of `hall_interleavings` take it out of a
//!   list that is cut there; so what an owner writes is such a step in some order of the list (`WritesInAnOrder`), and a quiet step leads to it.
//! - **What an owner writes is a step of `hall_interleavings`** (`ActsOn`, `PausesOn`), for each event: so one law leads on from a running state,
//!   and the sequences of steps in that crate are those of the code.
//! - **All events write the same three parts**: the list, the pool and the lane. A part that the seat does not hold is whichever one is there.
//!   So the law of a written hall is one, and each set of slots has one put back.
//! - **What a seat notes is a value** (`Noting`) that the put back takes, since the note of a step is read from the arguments of its call.
//! - **Whose period runs in a lane the list says**, by the owner of the deque. The worker that a lane notes beside its period is of no account:
//!   the calls that close a period ask nothing of it.
#![tactic(auto)]

mod actions;
mod ends;
mod forks;
pub mod laws;
mod list_calls;
mod noting;
mod puts;

pub use actions::{do_alloc, do_dummy, do_fault, do_join, do_join_giving, do_release};
pub use ends::{end_above, end_forked, end_root};
pub use forks::do_fork;
pub use list_calls::{deliver, leave_result, suspend, take_waiting};
pub use noting::Noting;
pub use puts::{
    give_short_back, give_still_back, put_all, put_lane, put_list_and_lane, put_pool_and_lane,
};
