//! The actions of a worker's top thread, one by one.
//!
//! The top thread was taken out of its deque. [`advance`] leads it to its next action, or [`step_on`] some way towards it, and [`readiness_of`] says whether it may do it, by the
//! quota of its period and the results that it has. [`give`], [`hand_over`] and [`take_result`] bring it the result of a child. The calls named
//! `_done` let it do the action, with the blocks of the pool that it takes or gives. All these touch nothing else: they are for each
//! scheduler, whatever it holds its parts in. The others put the thread back into a list as well, and write the action into the worker's
//! period.
//!
//! It stands on threads (`thread_frames`) and on what an event does to the list and the periods (`list_changes`). Its one
//! theorem: each call does on the parts what the machine does with this action, for each program that the thread is of. Beside it each call
//! says which deques are in the list afterwards, and which deque each worker has.
//!
//! # Why
//!
//! - **One call for each action, and none that picks.** The scheduler, which knows all actions, says which one comes next and whether it may
//!   come (the quota, the arena, the limit of actions).
//! - **What a thread does with the pool is a call of its own** (`alloc_done`, `release_done`, `dummy_done`, `fault_done`, `join_done`,
//!   `fork_done`, `end_done`). It touches neither a list of deques nor a period, and its clause is what the machine does, whatever the program.
//!   So a scheduler that holds its deques and periods otherwise does the same actions by the same calls. The other calls add what
//!   `list_changes` does: the thread goes back into a list, and the action into the worker's period.
//! - **A Join and an End take no pool**: the rows or the record block that go back are part of the answer. So a scheduler with its pool in a
//!   place of its own takes it only if words go back. Rejected: a pool without words for the other Joins, which `block_arena` does not make.
//! - **Whether an action may come is asked of one period and the thread** (`readiness_of`), not of a table or a scheduler. A child whose result
//!   was not delivered is an answer of its own (`Missing`): where results are kept is the scheduler's to know.
//! - A call asks for no memory, so that a scheduler can ask for all that an event takes before it takes the thread out of its deque. Only Alloc
//!   and Fork can be refused, by a full arena. The thread then comes back unchanged, and nothing has changed.
#![tactic(auto)]

mod acts;
mod done;
mod ends;
mod finished;
mod forked;
mod forks;
mod going;
mod joined;
mod readiness;
mod results;

pub use acts::{alloc, dummy, fault, join, release};
pub use done::{
    alloc_done, dummy_done, end_done, fault_done, fork_done, join_done, name_of, release_done,
};
pub use ends::{end_above, end_and_leave, end_and_wake};
pub use finished::Finished;
pub use forked::Forked;
pub use forks::fork;
pub use going::{advance, reserve_place, step_on};
pub use joined::Joined;
pub use readiness::{Readiness, readiness_of};
pub use results::{give, hand_over, take_result};
