/// The words of an action do not fit beside those that are out.
#[derive(Debug, Clone, Copy, PartialEq, Eq)]
pub struct ArenaFull {
    /// How many words are out.
    pub live: u64,
    /// How many words the action takes.
    pub asked: u64,
}
