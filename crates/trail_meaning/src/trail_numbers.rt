/// The numbers that a play ended with.
#[derive(Clone, Copy, PartialEq, Eq, Debug)]
pub struct TrailNumbers {
    /// The number of periods: one for each steal.
    pub periods: u64,
    /// How many of these began with a deque to their left.
    pub ahead: u64,
    /// The most words in use at once, in words.
    pub high: u64,
}
