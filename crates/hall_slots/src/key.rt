use depth_first_list::Quota;
use std::snapshot::Snapshot;
use thread_frames::Code;

/// What is fixed for a hall: its program, and what bounds its run.
#[derive(Drop)]
pub struct HallKey {
    /// The program, for contracts alone.
    pub code: Snapshot<Code>,
    /// The words that a worker may allocate between two steals.
    pub quota: Quota,
    pub workers: u32,
    /// The words of the pool.
    pub capacity: u64,
    /// How many actions the run may do.
    pub actions: u32,
    /// How many deques it may have.
    pub deques: u32,
}
