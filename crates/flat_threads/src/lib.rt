//! What holds along the way of a thread that flat code goes.
//!
//! The crate has definitions and laws alone. A way (`Steps` of `flat_statements`) is what the contract of a run of flat code gives: the steps
//! of a thread from where the run began to where it stopped. A thread that takes such a way at once has to know of it what it knows of each
//! step that it does by itself.
//!
//! It builds on the node table (`node_table`), on frames and what is left to do of them (`thread_stack`), on rows of slots (`slot_store`),
//! on flat code as a definition (`flat_statements`), on the depth-first run and the points of its threads (`depth_first_run`,
//! `thread_points`), and on the state and the output of a thread (`thread_state`, `thread_output`). `thread_run` uses it.
//!
//! Its theorem is [`threads_go_their_ways`]: a thread that is at a point of the depth-first run, and goes a way inside its function, is at a
//! later point, with the same open children, the frames, the row and the turns of the end of the way, and the lines and the fault that it had.
//! Its parts are laws of their own. By [`threads_are_in_state`] a thread meets what ways ask of a state; by [`threads_come_along`] the way is
//! one of the thread in the depth-first run; by [`threads_are_in_later_state`] the thread is in the state there; by [`marks_say_nothing`] its
//! lines and its fault are as they were. By [`words_stay`] it has as many words, and by [`other_frames_stay`] no other frames but those of
//! statements, so the functions of its calls are as they were.
//!
//! By [`ways_leave_less`] each step of a way leaves less to do, so a thread that goes from way to way gets to its next action
//! ([`steps_leave_less`] is the same of one step). By [`ways_stay_with_more_turns`] a thread may give a run some of its turns alone: with all
//! of them it goes the same way, and those that it kept are left besides; by [`ways_take_turns`] none comes back. By [`rows_stay`] the row
//! has as many slots after a way as before, as many words in its blocks, and no slot with two blocks.
//!
//! # Why
//!
//! - **Laws are of plain values**: states, rows, frames, lines and faults, and not of a thread as one Rust value. So the crate is below the one
//!   that runs threads, which has all of them in one struct.
//! - **No rule of ownership is needed.** A slot in memory has one block at most, and a step that leaves marks of lines alone forks no child.
#![tactic(auto)]

mod laws;

pub use laws::{
    marks_say_nothing, other_frames_stay, rows_stay, steps_leave_less, threads_are_in_later_state,
    threads_are_in_state, threads_come_along, threads_go_their_ways, ways_leave_less,
    ways_stay_with_more_turns, ways_take_turns, words_stay,
};
