//! The machine of a ready list, over a depth-first list: the scheduler after AsyncDF in which a worker takes the leftmost ready thread.
//!
//! A ready list is a list of deques with one thread each, so it uses the machine of deques (`deque_machine`). A Take is that machine's
//! steal of the leftmost deque without an owner. A Fork is that machine's Fork, after which the deque of two threads is cut in two
//! ([`laws::forks_are_cut`]). Every other event is the same in both ([`laws::all_but_forks_are_shared`]). A lawful ready list is a lawful
//! moment of deques with one thread each, so its order, books, births and marks are those of `deque_machine`.
//!
//! The crate has definitions and laws alone, over plain values. Its theorem is that at each moment of each run the words in use are at most the
//! depth-first peak, and two quotas for each period that is ahead ([`laws::bound_in_ready`]), and that each such period is marked
//! ([`laws::ahead_is_marked`]). A list of words picks a play, which ends ([`laws::plays_end`]). Two more modules of laws:
//!
//! - [`replay_laws`]: the machine of a ready list, computed over the computed machine of deques (`deque_machine`), answers only runs, and the
//!   computed play is the play, which a list of words picks. `proofs/Examples.antt` has three small programs by one worker, with their
//!   periods and high-water marks, one of them in an arena that is too small, and the first moments of a run by two workers.
//! - [`scheduler_laws`]: where a scheduler with one ready list is, event by event, in the words of `moment_laws`. If the rules want an event, and
//!   the scheduler did it as the machine of deques does, then it is at the next lawful ready list ([`scheduler_laws::one_thread_each`]); after a
//!   Fork once the deque of two threads is cut ([`scheduler_laws::two_are_cut`]).
//!
//! # Why
//!
//! - **A ready list is a list of deques of one thread each.** So order, books, bound and marks are those of `deque_machine`, and none of them
//!   is written twice. A Take is a steal with the word 0, and a Fork is that machine's, with the deque of two cut in two.
//! - **The parent's entry gets the least id that is free**, so that a play is one.
//! - **The limit of deques stays in the play** of a ready list. `lists_never_fill` says that it never matters.
//! - **The bound on entries is said of parts** (`entries_are_few`): each thread but the root has a record block.
#![tactic(auto)]

pub mod laws;
pub mod replay_laws;
pub mod scheduler_laws;
