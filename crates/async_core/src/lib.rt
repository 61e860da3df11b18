//! A ready list: a run of a program by workers on one thread, one event at a time, after AsyncDF(K).
//!
//! The ready threads are in one list, from left to right in depth-first order, which is a list of deques of one thread each (G. Narlikar and
//! G. Blelloch, "Space-Efficient Scheduling of Nested Parallelism", TOPLAS 1999). An idle worker takes the leftmost thread that nobody runs.
//! One that has a thread lets it do its next action, or wait, or gives it up if the quota of its period is spent; after a Fork it runs the
//! child, and the parent is ready to its right.
//!
//! The crate uses the same steps as the core of the deques: the step of a worker that has a thread or is idle (`worker_step`),
//! and one cut of a deque of two (`list_changes`). Its one theorem: whatever the program, what is held is at a moment of a
//! run of the ready list (`ready_machine`), each step is the event that its rules want of the worker, or meets the stop that they name, and
//! a run that finishes has the fault and the lines of the depth-first run.
//!
//! # Why
//!
//! - **A step is one of the deques, and a cut after a Fork**: `step_of_thief` with the word 0 takes the leftmost ready thread, `step_of_owner`
//!   does everything else, and `set_aside` gives the parent of a Fork an entry of its own. So no code of an event is written twice.
//! - **Room for one more entry is made before the step of an owner**, since the step takes none (`spare` of `step_of_owner`). If as many
//!   entries are in the list as may be, none is made: then the arena has no room for a record, and no Fork can come (`entries_are_few`).
//! - The list may have one entry, and one for each record of 16 words in the pool. So a place in the list is never wanting, and no answer says
//!   so (`MeetsBy`). A pool that can grow may have more words than an arena; the type [`Arena`] says that this one has not.
//! - After a Fork the code looks at the lane of the worker's deque: it has two threads exactly if the event was a Fork (`one_or_two`).
//! - A turn draws one word, also if the worker is idle: no word picks from whom it takes.
#![tactic(auto)]

mod arena;
mod aside;
mod events;
mod player;
mod run;

pub use arena::Arena;
pub use player::play_async;
pub use run::AsyncCore;
