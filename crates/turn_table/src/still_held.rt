//! The refusal of a close.

/// A turn is still held. The slot is the first of these.
#[derive(Drop, Clone, Copy, PartialEq, Eq, Debug)]
pub struct StillHeld {
    pub slot: u32,
}
