//! What a program means: its depth-first run, action by action, with what it prints.
//!
//! This layer says what a program means: what its depth-first run does, action by action, and prints. In
//! that run a forked child runs to its end before its parent goes on. It stands on the tree of a program,
//! on the rules of names, and on the order of actions.
//!
//! - `specs/Stores.antt` has what a thread can reach, `specs/Values.antt` what an expression gives,
//!   `specs/States.antt` a thread while it runs and what single actions do to it, `specs/Calls.antt` what
//!   a call passes and takes back.
//! - `specs/Run.antt` is the run itself, by recursion over the statements, to the end of each branch:
//!   `whole` has the list of all that a run leaves, from which come the actions in depth-first order, the
//!   printed lines and the first fault. There are no frames and no workers in it.
//! - `specs/Middle.antt` is a run in the middle: what is left to do, and one step of it.
//!
//! Its one theorem, by the functions of [`laws`]: a run in the middle comes to what the whole run comes to,
//! and its actions are a depth-first list, in which live words never fall below 0.
//!
//! # Why
//!
//! - **A store is by names**: integers are a function of names, and held blocks a list in which the first of a name counts. An integer that was
//!   never set reads as 0, and a block that is not held as an empty one; an accepted program does neither. So the definition is total without a
//!   further outcome, and code can follow it without a proof of ownership.
//! - **A block moves**: what is passed, lent back, handed back or put together again leaves the place where it was, so no block is ever in two
//!   places.
//! - **What a run leaves is one list of items**, in which each statement leaves a mark as it begins. The marks count for nothing in the output,
//!   and make the length of the list a measure of the work.
//! - **A faulted thread is a state with a mark** that skips statements; its joins happen in their places, which is from the newest child to the
//!   oldest.
//! - **The integers that a branch assigns** are those that its text assigns, by `=` or as the target of a call, whether or not the run gets
//!   there.
//! - **A run in the middle keeps its parents and its ended children in frames**, so one list of frames serves the whole serial run; each thread
//!   of it is a segment of that list.
//! - **An empty list of statements leaves no frame**. So a loop, which comes again after its body, leaves none a round: what is left of a run
//!   grows with the constructs that are open in it and not with its length.
#![tactic(auto)]

pub mod laws;
