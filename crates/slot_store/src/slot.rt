use block_arena::Block;

/// What a slot has: an integer, and a block or none.
#[derive(Drop)]
pub(crate) struct Slot {
    pub(crate) integer: i64,
    pub(crate) block: Option<Block>,
}
