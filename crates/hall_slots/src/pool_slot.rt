use block_arena::Pool;
use space_ledger::Moves;

/// The words, and by how much each action changed those in use.
#[derive(Drop)]
pub struct PoolSlot {
    pub pool: Pool,
    pub moves: Moves,
}
