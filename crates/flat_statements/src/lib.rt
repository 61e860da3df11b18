//! Flat code of statements: what it is, and that it goes the way of a thread.
//!
//! The crate has definitions and laws alone. Flat code has acts one after another for all the statements of a function, with jumps
//! in place of lists in lists (`specs/Flat.antt`). With each place goes its mark: the frames that a thread has inside its function where
//! it is before the statement to which the place belongs. A machine that runs the code has a place, a row of slots and a number of
//! turns; a thread has frames, the function's slots and its turns (`specs/Threads.antt`). Which code is that of a statement, of a list
//! and of frames is said by recursion over the node table (`specs/Codes.antt`, `specs/Follows.antt`).
//!
//! It builds on the node table (`node_table`), on frames and lists of statements (`thread_stack`), on rows of slots (`slot_store`), on the
//! straight code of expressions (`flat_expressions`) and on the depth-first run as a definition (`depth_first_run`).
//!
//! Its theorem, [`machine_follows_the_thread`]: where the machine represents a thread, each step of the thread is some steps of the
//! machine after which it represents the thread again; or the machine meets the same fault, or gets to a place where flat code ends, and
//! there the thread is as it was. By [`marks_are_frames`] the frames of the thread are always the mark of the machine's place. So the
//! machine holds no frames: where it ends it reads them off its place, and by [`machine_ends_with_the_thread`] the thread ends there too.
//! [`whole_lists_are_code`] says where it begins, [`code_goes_on`] where it goes on after a statement that the thread did by itself, and
//! [`thread_steps_are_of_the_run`] that a step of a thread over slots is the step of the depth-first run, where the row shows the store of
//! a state and the thread's frames are the run's; by [`thread_ways_are_of_the_run`] so many steps are as many of the run, none of them an
//! action, whatever frames are after the function's. [`turns_stay`] lets a thread be given some of its turns alone.
//!
//! `flat_code` has Rust types of code and marks, and makes such code of each list of a program's table, if the row has room for the
//! temporary slots. `flat_run` has the loop that runs it.
//!
//! # Why
//!
//! - **A loop has its test twice.** A thread that meets a loop in a list has the frame of the list; after the body it has the frame
//!   of the loop. A place that was jumped back to would have two marks, and a fault in the condition would not say which of them the
//!   thread is to have. With a second test after the body each place has one mark, and a round has no jump back besides its test.
//! - **The test of a loop takes the turn.** The turn comes after the condition and may fault, so it is within the statement, whose mark
//!   it has.
//! - **A statement that is the last of its list goes on where the list goes on**, as a thread has no frame of an empty list. So the ends
//!   of lists are no acts, and marks are equations between lists of frames, by recursion over the numbers of a list.
//! - **Each place of a statement has the statement's mark**, so a fault within its acts needs no search for the beginning of the
//!   statement. Acts leave the function's slots as they were up to the last one.
//! - **Code is asked for by what it does** (`Do` and `AreTest` of `flat_expressions`), and not by which acts it is.
//! - **Nesting is a depth**, as in the measure of threads: what is inside a node is looked up in the table, and no tree is walked
//!   beside it.
#![tactic(auto)]

mod laws;

pub use laws::{
    code_goes_on, frames_behind_stay, machine_ends_with_the_thread, machine_follows_the_thread,
    marks_are_frames, thread_steps_are_of_the_run, thread_ways_are_of_the_run, turns_stay,
    whole_lists_are_code,
};
