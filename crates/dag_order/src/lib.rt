//! Names of threads and actions, and the order of a fork-join program's threads.
//!
//! A thread has two names. Its [`ThreadId`] says where it was forked: in which period and as which fork of
//! that period. Its [`Label`] says where it stands in the program: the ordinals of the forks from the root
//! down to it. A [`Roster`] keeps the births of the threads, and leads from the first name to the second.
//!
//! The order on labels is the depth-first order of the program: a forked child runs before what its parent
//! does next, so a label is before each label that it extends, and of two forks the earlier one is before
//! the later one. The scheduler's list of deques stands in this order (G. Narlikar, "Scheduling Threads for
//! Low Space Requirement and Good Locality", SPAA 1999).
//!
//! The crate stands on `containers`. Its one theorem is the order law: [`before`] is this order, which is
//! strict and total, and a fork's label stands directly before its parent's.
//!
//! # Why
//!
//! - `Label` and `Roster` are types of their own, with a model: contracts see a label as the list of its ordinals and a roster as a list of
//!   lists of births. `Label::fork` takes its allocator from the label.
//! - A label's fork has in its contract that it is directly before its parent: what is between the two comes from a later fork of the same
//!   parent.
//! - `Placed` carries the laws of a strict order as trait laws with proofs, so no `impl` has to give them. `is_in_order` compares only
//!   neighbours and rests on these laws.
//! - `Roster::add_period` asks of the new births only that their parents come first. The births of a scheduler's periods do, one period after
//!   the other: the law is `births_may_follow` of `moment_shown`.
#![tactic(auto)]

mod action_id;
mod birth;
mod fault;
mod finish;
mod kind;
mod label;
mod lines;
mod placed;
mod roster;
mod thread_id;

pub use action_id::ActionId;
pub use birth::{Birth, Births};
pub use fault::{FaultAt, FaultKind};
pub use finish::Finish;
pub use kind::Kind;
pub use label::{Label, before};
pub use lines::Lines;
pub use placed::{Placed, is_in_order};
pub use roster::{Roster, RosterFail};
pub use thread_id::ThreadId;
