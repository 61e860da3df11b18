/// What a trail fixes beside its program.
#[derive(Clone, Copy, PartialEq, Eq, Debug)]
pub struct Terms {
    /// The quota, in words.
    pub quota: u32,
    /// The number of workers.
    pub workers: u32,
    /// The most words in use at once.
    pub arena: u32,
    /// The most actions.
    pub steps: u32,
    /// The most deques at once.
    pub deques: u32,
}
