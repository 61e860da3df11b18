use thread_stack::Frame;

/// Where a statement is: the number of its node, its place, and the frames before it and after it, the next one last.
#[derive(Drop)]
pub(crate) struct Site<'a> {
    pub(crate) number: u32,
    pub(crate) place: u32,
    pub(crate) here: &'a [Frame],
    pub(crate) behind: &'a [Frame],
}
