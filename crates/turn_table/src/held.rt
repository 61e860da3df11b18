//! The refusal of a take.

/// The turn of this slot was not free.
#[derive(Drop, Clone, Copy, PartialEq, Eq, Debug)]
pub struct Held {
    pub slot: u32,
    /// The turn word that the one compare and exchange found.
    pub seen: u64,
}
