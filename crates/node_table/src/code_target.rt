/// Where the answer of a call goes.
#[derive(Clone, Copy)]
pub enum CodeTarget {
    /// Nowhere.
    Unused,
    /// To the integer of a slot.
    Int(u16),
    /// To a slot, as a new block of the function's own.
    Own(u16),
}
