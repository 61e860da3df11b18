use node_table::NodeTable;

/// What the code of a function is made with: the table, how many slots the function has, and how many a row has.
#[derive(Drop)]
pub(crate) struct Scope<'a> {
    pub(crate) table: &'a NodeTable,
    pub(crate) slots: u16,
    pub(crate) size: u16,
}
