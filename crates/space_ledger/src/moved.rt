use dag_order::ActionId;

/// The words that an action took, or gave back where `change` is below 0.
#[derive(Clone, Copy, PartialEq, Eq, Debug)]
pub struct Moved {
    pub by: ActionId,
    pub change: i64,
}
