//! A depth-first run in the middle.

use block_arena::Pool;
use containers::Boxed;
use serial_journal::Journal;
use thread_frames::Thread;

/// The thread that runs, those that wait for it, and what is written down.
#[derive(Drop)]
pub(crate) struct Run {
    pub(crate) top: Boxed<Thread>,
    /// The parent of `top` last, and before each thread its own parent.
    pub(crate) parents: Vec<Boxed<Thread>>,
    pub(crate) pool: Pool,
    pub(crate) journal: Journal,
    /// How many actions are done.
    pub(crate) done: u32,
    /// Threads that have ended, whose places are used again.
    pub(crate) used: Vec<Boxed<Thread>>,
}
