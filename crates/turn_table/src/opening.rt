//! What a table below is told when it is made.
use std::snapshot::Snapshot;

/// The key, and what the slots hold at first, for the rule alone.
#[derive(Drop)]
pub struct Opening<K, V> {
    pub key: Snapshot<K>,
    pub values: Snapshot<Vec<Option<V>>>,
}
