//! Where a thread is in the one depth-first run.
//!
//! A thread runs alone, and its children end in any order; the depth-first run is one list of steps. This layer says
//! where in that list a thread is at any time, so that what it does next is what the depth-first run does there. It
//! stands on the depth-first run (`depth_first_run`) and on the facts of depth-first lists (`depth_first_list`), and
//! holds definitions and laws alone.
//!
//! - `specs/Points.antt` says that a thread is at a point of the run, and what a step does there: it changes the thread
//!   alone, or forks a child.
//! - `specs/Threads.antt` says how a thread begins, and what it has left since then: in parts, one more than it has
//!   open children, since what an open child leaves stands between two of them.
//!
//! Its one theorem, by the functions of [`laws`]: a thread that begins at a point goes on at points, by steps, forks and
//! joins, whatever became of its children in between; each of its actions is the action of the depth-first list with its
//! label and index; and the root's end tells the whole run.
#![tactic(auto)]

pub mod laws;
