use containers::Boxed;
use hall_slots::{LaneSlot, ListSlot};
use play_rules::RunEnd;
use std::alloc::Global;
use turn_table::Held;

/// Who steals, and where its memory is from.
#[derive(Clone, Copy)]
pub struct Thief {
    pub worker: u32,
    pub alloc: Global,
}

/// What a thief holds that has found a deque to rob.
#[derive(Drop)]
pub struct Prey {
    pub list: Boxed<ListSlot>,
    /// The place of the deque, from 0 at the left.
    pub place: u32,
    pub lane: LaneSlot,
}

/// Why a thief has found none.
#[derive(Clone, Copy, PartialEq, Eq, Debug)]
pub enum SeekRefused {
    /// Another seat holds a slot that the thief needs.
    Busy(Held),
    /// No deque in reach has a thread to steal.
    Nothing,
    /// The run has ended so.
    Over(RunEnd),
}
