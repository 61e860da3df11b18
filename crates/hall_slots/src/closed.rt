use crate::{ListSlot, PoolSlot};
use containers::Boxed;
use play_rules::RunEnd;

/// What comes out of a hall that is closed.
#[derive(Drop)]
pub struct ClosedHall {
    pub end: RunEnd,
    pub list: Boxed<ListSlot>,
    pub pool: PoolSlot,
}
