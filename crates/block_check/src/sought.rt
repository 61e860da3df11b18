use crate::entry::Entry;
use crate::fork::Fork;

/// The `par` of a number, or the number that is left behind what was searched, and the names again.
#[derive(Drop)]
pub(crate) enum Sought<'a> {
    Found(Fork<'a>),
    Passed(u32, Vec<Entry<'a>>),
}
