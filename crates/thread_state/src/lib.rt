//! The state of a thread: its label, its counts, and a row of slots for each open call.
//!
//! A thread has a label, counts, and a row of slots for each call that is open. It prints nothing and has no frames, and it asks a pool for
//! nothing: blocks come from whoever took them, and go back where an action gives them back. An action is only prepared here where it needs
//! memory (`prepare_fork`, `prepare_dummies`), and done by a call of its own that needs none. A fault is such an action: the call that finds
//! it answers it and leaves the thread as it was, and `fault` does it.
//!
//! Stands on the rows of slots (`slot_store`), the node table and the depth-first run as a definition. Its one theorem is that each call
//! leads from a state of the depth-first run to the state to which the definition's own function leads, for every state that the thread is in
//! (`IsState`); that a call gives just the words back to the pool that the definition says; and that want of memory leaves the thread in its
//! state. What must stand in the rows before a call is a condition of it, and is never tested.
//!
//! # Why
//!
//! - **A relation ties a thread to each state of the run that it shows**, whatever items that state has: what is printed, and which actions
//!   were done, is kept elsewhere. Each clause holds for every such state.
//! - **A fault is found by one call and done by another.** If a statement faults, the thread is unchanged, and the action of the fault is its
//!   next one. The same holds of a call that meets a limit: its arguments are evaluated first, then the limits are tested, and then the blocks
//!   move.
//! - **A thread that a fault ended keeps one row without slots**, so that conditions on slots exclude it.
//! - Only a Fork is prepared ahead, by the memory of the child's label and row.
#![tactic(auto)]

mod blocks;
mod calls;
mod ends;
mod fork_room;
mod forks;
mod joins;
mod released_rows;
mod simple;
mod state;
mod stop;
mod words;

pub use fork_room::ForkRoom;
pub use released_rows::ReleasedRows;
pub use state::ThreadState;
pub use stop::Stop;
