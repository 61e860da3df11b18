//! The depth-first list of the actions of a fork-join run, and the trees of dummies in it.
//!
//! A run is a tree of threads. Its depth-first list has all their actions; at each Fork the child's whole list comes before the parent's next
//! action. The rules of such a list speak of no program: plain actions, forks, joins of the newest open child, and a tree of dummies before each
//! large allocation.
//!
//! A worker may allocate at most a quota of K words between two steals ([`Quota`]). Before an allocation of `w > K` words a binary tree of
//! `ceil(w/K)` dummy threads is run ([`Tree`]), and a worker that has run a dummy steals again. So a large allocation costs as many steals as the
//! quotas that it needs (G. Narlikar and G. Blelloch, "Space-Efficient Scheduling of Nested Parallelism", TOPLAS 1999).
//!
//! It uses the labels of `dag_order`. Its theorems: n leaves of a tree give 4n - 3 actions, n of them dummies, and no more forks are above one
//! another than n has binary digits; and what holds of each depth-first list, one fact for each function of [`laws`], from which a scheduler's
//! order and its bound of memory follow.
//!
//! # Why
//!
//! - The tree of n leaves is a `Shape` (a leaf, or what the forked child runs and what the thread runs itself), so that meanings can recurse on
//!   it. `Tree::halves` says that the shape of a tree is made of the shapes of its halves.
//! - `Quota` and `Tree` carry their ranges as ghost fields, which every caller may read.
//! - An action's weight is a function of what it does and of its words, so that no list can hold an action with another weight. A change of the
//!   weights is a change of `weight_of`.
//! - The rules say nothing of which words a Release, a Fault or a Join gives back: that is the program's meaning. They say when an Alloc has a
//!   tree of dummies before it, which depends on the quota.
//! - A Join names the child by its ordinal, and so does a Fork. The label of the child follows from it.
//! - Facts speak of an action by its place in the list. What holds of any part of a list that is done is said for every count `done` of the
//!   places that is closed under what must come first: earlier actions of the thread, the Forks above it, and the End of a child that is
//!   joined.
//! - The facts of trees require a quota above 0, since otherwise no number of dummies would be enough.
//! - `proofs/Building.antt` has the rules as they are used by a run that is built action by action.
#![tactic(auto)]

mod dummy_count;
pub mod laws;
mod quota;
mod tree;

pub use dummy_count::dummies;
pub use quota::Quota;
pub use tree::Tree;
