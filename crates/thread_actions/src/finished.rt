use block_arena::RecordBlock;
use dag_order::ActionId;
use thread_frames::Ended;

/// What an End brings.
#[derive(Drop)]
pub struct Finished {
    /// The name of the End.
    pub name: ActionId,
    /// The result of the thread.
    pub ended: Ended,
    /// The record block of the thread, which goes back to the pool. The root has none.
    pub record: Option<RecordBlock>,
}
