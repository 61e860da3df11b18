use crate::lane_slot::LaneSlot;
use crate::list_slot::ListSlot;
use crate::pool_slot::PoolSlot;
use containers::Boxed;

/// What is in a slot of a hall.
#[derive(Drop)]
pub enum Slot {
    /// The list, in slot 0. It is on the heap, so that the other slots are not as large.
    List(Boxed<ListSlot>),
    /// The pool, in slot 1.
    Pool(PoolSlot),
    /// The lane of the deque d, in slot 2 + d.
    Lane(LaneSlot),
}
