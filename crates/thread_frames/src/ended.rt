use dag_order::ThreadId;
use thread_output::Told;
use thread_state::ThreadState;

/// What is left of a thread behind its End, for the Join of its parent; of the root it is what is left of the whole run.
#[derive(Drop)]
pub struct Ended {
    pub(crate) id: ThreadId,
    pub(crate) parent: Option<ThreadId>,
    pub(crate) func: Option<u32>,
    pub(crate) state: ThreadState,
    pub(crate) told: Told,
}
