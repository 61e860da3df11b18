//! What a thread runs: its slots, its frames and its output, from one action to the next.
//!
//! A thread runs silently until an action comes, and stops before it. [`ThreadRun::advance`] goes there, one step after another, and
//! answers the action that comes next with the memory that it needs; it does none.
//!
//! A single step is a statement, or a frame that is none. Its caller has found the statement and has put what is left of its list, or has
//! taken the frame off the stack, and a statement answers what comes before what is left: at most two frames. So no step needs the stack
//! ([`statement`], [`dummies`], [`allocates`], [`rejoins`]). Calls are begun and ended by the run itself, since it has the frames of the
//! caller at hand, and a Join is a frame of its own.
//!
//! Plain statements, which do no action, call nothing and print nothing, are done by the flat code of the program (`thread_code`), all at once:
//! where a statement has flat code, the run goes along it to where that stops, and its frames are then the mark of that place. The statement
//! there, and one that faults or has no flat code, is done by a single step.
//!
//! It stands on the state of a thread (`thread_state`), on its frames (`thread_stack`), on what holds along a way of flat code
//! (`flat_threads`), on the points of threads in the one depth-first run (`thread_points`) and on what a thread of an accepted program holds
//! there (`ownership_laws`), which says that each block is there that a statement needs, and that none is where it puts one.
//!
//! Its one theorem, by [`ThreadRun::advance`]: a thread that stands at a point of the one depth-first run comes to the point at which the
//! run does the next action of this thread, and the answer is this action. What a step leaves is what the step of the depth-first run
//! leaves there, and a statement leaves less than there was, so that steps come to an action. Want of memory is the one free answer, and
//! after it the thread has done what it had done, and has the words that it had.
//!
//! # Why
//!
//! - **A statement answers what comes before the rest**, at most two frames; the layer above puts the rest of its list on the stack before the
//!   statement is done. So no step needs the stack, the numbers of a list and the node of a statement are looked up once each, and little is
//!   moved.
//! - **A thread has frames wherever it stops, and no place of flat code.** So nothing but the run along flat code knows of it. Whether the frames
//!   of the thread are those of the place is tested, and so is the length of its row: then nothing about them has to be known at each point.
//! - **Memory for the frames of a mark is found before the run**, which cannot be undone.
//! - **A run along flat code is given no more turns than lead to where the thread is to stop**, and the rest again afterwards: it needs no bound
//!   of its own.
//! - An action is not done by a step: the step names it, with the memory that it needs. The mark of its statement and the action are one step
//!   of the run, so they are done together.
//! - **A call and a Join are no steps of this layer.** A call needs the frames of its caller, so the layer above, which looks the node up,
//!   begins it there; a Join is its own frame.
//! - **Clauses hold for every program, conditions for some.** `advance` asks that some accepted program with this table has a point at which
//!   the thread is, and answers for each such program and point. So two threads that each know only that there is a program can be joined.
//! - **What is asked below is shown, never tested**: that a block is there, that a slot is empty, that a call finds its function. Such a fact
//!   has at most one proof, so it may be shown from what is only known to be.
//! - "Not enough memory" leaves a thread in the middle of its way. It has its label, its counts and its words, which is all that giving it back
//!   needs.
//! - The functions of open children are kept as numbers beside the frames, as plain data: a Join finds the names of the child's slots by them.
#![tactic(auto)]

mod acts;
mod calls;
mod changes;
mod done;
mod ends;
mod flat;
mod frames;
mod lists;
mod putting;
mod ready;
mod run;
mod simple;
mod statements;
mod stepping;

pub use done::Done;
pub use frames::{allocates, dummies, rejoins};
pub use ready::{Forking, Ready};
pub use run::ThreadRun;
pub use statements::statement;
pub use thread_code::Code;
