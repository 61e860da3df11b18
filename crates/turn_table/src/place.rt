//! What a seat is to the table below.
use crate::hand::Hand;

/// The view of a seat. No value of it is made.
pub struct Place<K, V, N> {
    /// The key of the law. None once the seat was joined into another.
    pub key: Option<K>,
    pub hand: Hand<V, N>,
}
