//! An accepted program keeps its ownership promises when it runs.
//!
//! It has laws alone, over the rules of ownership (`par_ownership`), the depth-first run (`depth_first_run`) and the points of its threads
//! (`thread_points`). A thread keeps its blocks by their names, one place a name; `specs/Holdings.antt` says how often a name is given a block by
//! a statement, a call or the end of one.
//!
//! Its theorem, by the functions of [`laws`]: if a program keeps the rules, each thread holds at each point the blocks that the rules say, at most
//! one of each name, none longer than a block may be, and at the end all words are given back. A block is put under a name only if there is none.
//! At the end of a call there is no block but those that go back and the one that is handed out, which its target takes. A block that was split
//! comes back in whole pieces, no longer than it was. A step without an action keeps the words of its thread. So no word that was taken is ever
//! lost.
//!
//! # Why
//!
//! - The laws that join the ownership rules to the run are in a crate of their own over `par_ownership` and `depth_first_run`: neither of those
//!   needs the other's proofs.
//! - A thread is said to hold of each name as many blocks as the environment says, one or none. The law for a list of statements speaks of the
//!   names that the list writes; of all other names it says that nothing changes. So it holds of a forked branch, which has only the blocks of
//!   its own names, as it holds of the root.
//! - A fault ends a thread with nothing held and no open call; the laws say so beside what they say of a thread that goes on.
//! - That no block is too long is carried along with the counts. So the two parts at the end of a `split` are no longer than a block may be, and
//!   the code joins them without a test.
//! - What holds at each point is said of the points that a count of steps reaches from the beginning, and a law of its own says that they reach
//!   the end. The invariant, that each frame fits the state that those before it lead to, is only in the proofs.
#![tactic(auto)]

pub mod laws;
