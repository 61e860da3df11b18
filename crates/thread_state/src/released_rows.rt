use slot_store::Slots;

/// The rows of slots that a Join takes out of a thread or its child, with their blocks, which belong to the pool.
///
/// Where they have no words, nothing goes back, and they may be let go.
#[derive(Drop)]
pub struct ReleasedRows {
    pub(crate) slots: Slots,
    pub(crate) callers: Vec<Slots>,
}
