use dag_order::Label;
use slot_store::Slots;

/// The memory of a child that is not yet forked: its label and its row.
#[derive(Drop)]
pub struct ForkRoom {
    pub(crate) label: Label,
    pub(crate) slots: Slots,
    pub(crate) callers: Vec<Slots>,
}
