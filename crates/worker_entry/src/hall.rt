use depth_first_list::Quota;
use hall_slots::HallRow;
use std::alloc::Global;

/// A scheduler that threads share: its slots, and what bounds its run. Its program stands beside it.
#[derive(Drop)]
pub struct Hall {
    pub row: HallRow,
    /// The words that a worker may allocate between two steals.
    pub quota: Quota,
    pub workers: u32,
    /// How many actions the run may do.
    pub limit: u32,
    pub alloc: Global,
}
