ghost use Rattle.std.specs.Prelude.{◌≤◌, ◌-◌, vec_len, vec_capacity};
ghost use Rattle.thread_frames.specs.Memory.{frames_put, children_put};

use crate::open_child::OpenChild;
use crate::prepared::Prepared;
use block_arena::RecordBlock;
use dag_order::ThreadId;
use thread_run::ThreadRun;

/// A thread of a program: what it still has to do, its slots and its output, its open children, and its record block, which the root alone
/// does not have.
#[derive(Drop)]
pub struct Thread {
    pub(crate) id: ThreadId,
    pub(crate) parent: Option<ThreadId>,
    /// The function in which it began; None in a thread that runs a tree of dummies.
    pub(crate) func: Option<u32>,
    pub(crate) run: ThreadRun,
    /// The newest one last.
    pub(crate) children: Vec<OpenChild>,
    pub(crate) record_block: Option<RecordBlock>,
    pub(crate) prepared: Prepared,
    pub ghost frames_fit: { frames_put prepared ≤ vec_capacity run.frames - vec_len run.frames },
    pub ghost children_fit: { children_put prepared ≤ vec_capacity children - vec_len children },
}
