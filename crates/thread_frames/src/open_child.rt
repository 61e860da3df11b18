use crate::ended::Ended;
use dag_order::ThreadId;
use thread_output::Told;

/// A child that is forked and not yet joined: its ordinal among the forks of its parent, the function in which it began, what its parent
/// told since the fork before, and its result, once it is delivered.
#[derive(Drop)]
pub(crate) struct OpenChild {
    pub(crate) id: ThreadId,
    pub(crate) ordinal: u32,
    pub(crate) func: Option<u32>,
    pub(crate) before: Told,
    pub(crate) ended: Option<Ended>,
}
