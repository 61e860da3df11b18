use crate::place::Mark;

/// The frames before a statement and after it.
#[derive(Drop)]
pub(crate) struct Marks {
    pub(crate) here: Mark,
    pub(crate) behind: Mark,
}
