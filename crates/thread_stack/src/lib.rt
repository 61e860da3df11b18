//! What a thread still has to do: a stack of frames over the node table.
//!
//! A thread keeps no text. What it still has to do is a stack of [`Frame`]s, each a few numbers: a list of statements with a
//! place in it, a loop that comes again, a tree of dummies, the end of a call, of a `split` or of `main`, an allocation
//! behind its dummies, the Join of a child. This layer has these frames and their reading, and says which frames of the
//! depth-first run they are. It stands on the node table (`node_table`) and on the depth-first run (`depth_first_run`), and
//! knows of no number, block or output.
//!
//! Its one theorem, by [`numbers`], [`frame_from`] and the laws of `proofs/`: a list of statements is read one by one, as the run goes on
//! with it; and what is left, told by one number, grows less with each step that does no action, so that a thread comes to
//! its next action.
//!
//! # Why
//!
//! - **A frame is a few numbers of the node table.** A list of statements is named by what it is in (the body of a function, an arm, a loop, a
//!   branch, a `split`) with a place in it. So no list is copied and a thread borrows nothing.
//! - **An empty list leaves no frame**, and a loop comes again by a frame of its own node, as in the depth-first run.
//! - **The functions of open calls have numbers**: the end of a call keeps that of the caller. So a child and its parent are known to have
//!   slots of the same names when they join.
//! - **A thread that runs a tree of dummies is in no function**, and the end of a call would keep this too. So a call begins and ends in the
//!   same way in every thread, and no case has to be excluded.
//! - **What is left is one number**, made only of the table, which each silent step lowers. What is inside a node has greater numbers, so a
//!   node counts more than all that is in it. A turn counts more than any body. It is computed nowhere.
#![tactic(auto)]

mod branch;
mod frame;
mod list_of;
mod reading;

pub use branch::Branch;
pub use frame::Frame;
pub use list_of::ListOf;
pub use reading::{frame_from, numbers};
