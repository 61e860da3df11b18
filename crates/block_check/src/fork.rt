use crate::entry::Entry;
use par_tree::Body;

/// A `par`, with the names that are visible before it.
#[derive(Drop)]
pub(crate) struct Fork<'a> {
    pub names: Vec<Entry<'a>>,
    pub left: &'a Body,
    pub right: &'a Body,
}
