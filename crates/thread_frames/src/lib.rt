//! A thread as a scheduler holds it: from one action to the next, with the children that it has open.
//!
//! A [`Thread`] runs silently until an action comes, and then tells it; the call of the action does it, at once and with no memory, since
//! all that the action needs was had before. A Fork gives a child, which runs by itself; its result, [`Ended`], is delivered to its parent
//! at any time, and is taken in by the Join. The layer stands on what a thread runs (`thread_run`), on the state and the output of a thread
//! (`thread_state`, `thread_output`), and on the points of threads in the one depth-first run (`thread_points`).
//!
//! Its one theorem: at each time a thread is at its point of the depth-first run, whatever the other threads have done. What it does next
//! is the action that the depth-first list has under its label and index, with its words; each call of an action brings it to its next
//! point, and takes just these words from the pool, gives them back, or answers what has to go back; and its result is what the depth-first
//! run has at its End, so that the result of the root tells the whole run. The laws of the machine's events (`moment_shown`) speak of threads
//! as plain data: which data a thread is, is here too, and that each of its calls is what the law of its event asks for. Want of memory is the one free answer: of [`Thread::root`], [`Thread::advance`] and [`Ended::lines`].
//!
//! # Why
//!
//! - **All that an action needs is taken before the action is named.** `advance` asks for the memory of the action that comes. So the calls of
//!   actions can fail only at a full arena, which they test before anything moves. A Fork has the label and the row of its child, and room for
//!   what it puts into its parent. Slots that a branch takes or assigns are copied from the code, since the calls of actions have no code.
//! - **A child is built in its place.** A thread is large, and most of a Fork's cost was copying it. So its caller brings a `Place`, which is
//!   taken before the Fork, with room for the frames with which a child begins, and the Fork writes the child into it, field by field. A new
//!   place has a thread that runs nothing in it.
//! - **The place of a thread that ended is that of a later child.** An End takes the thread's parts out where it is, and no clause says what
//!   stays there, since none of it counts. `Place::of` clears it, and asks for no memory if its list of frames is long enough. A scheduler
//!   keeps it beside the place that is ready, since at an End one is ready already. So a loop that forks and joins asks for no place except the
//!   first two.
//! - **A record block is a piece without a list.** Nobody reads or writes it, so it is one box that moves from the pool and back, and takes no
//!   memory.
//! - **A thread is at its point for each program of its table**, and that there is one is a part of the claim. So a parent and a result that
//!   are at their points in the same run can be put together, and the calls without a code still know that a block is there.
//! - **A result that is delivered changes no point.** The frame of a Join has the child's end by the definition, whether the child has run or
//!   not; the result is only known to be this end.
//! - **The functions of open children are plain data**, a number for each: a child begins in the function of its parent, or in none if it runs
//!   dummies, and its result says which. By it a Join knows the names of the child's slots.
//! - What callers see is plain data too (ids, label, counts, open children, next action, words): what a scheduler proves speaks of no frame.
//! - An allocation or a release of 2^32 words or more is "not enough memory", exactly then (`words_for`, `words_given`). None comes: a block
//!   has at most 2^20 numbers. That is argued and not proved.
#![tactic(auto)]

mod acts;
mod child_room;
mod ended;
mod ends;
mod error;
mod forks;
mod going;
mod joins;
mod laws;
mod next;
mod open_child;
mod place;
mod prepared;
mod thread;

pub use ended::Ended;
pub use ends::give_record;
pub use error::ArenaFull;
pub use laws::{
    actions_are_acted, deliveries_hand_over, forks_are_forked, joins_are_joined, next_actions_stand,
};
pub use next::Next;
pub use place::Place;
pub use thread::Thread;
pub use thread_run::Code;
