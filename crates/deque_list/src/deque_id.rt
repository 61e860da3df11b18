/// The name of a deque in the list, below the number of deques that the list allows.
///
/// Deques that stand in the list at one time have different ids. A new deque has the smallest id that none
/// of them has.
#[derive(Clone, Copy, PartialEq, Eq, PartialOrd, Ord, Hash, Debug)]
pub struct DequeId(pub u32);
