use dag_order::ActionId;
use thread_state::ReleasedRows;

/// What a Join brings.
#[derive(Drop)]
pub struct Joined {
    /// The name of the Join.
    pub name: ActionId,
    /// The words that go back to the pool.
    pub words: u64,
    /// The rows with these words. If there are none, no pool is needed.
    pub rows: ReleasedRows,
}
