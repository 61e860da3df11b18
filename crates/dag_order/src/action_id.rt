use crate::thread_id::ThreadId;

/// The name of an action: it is action `index`, from 0, of the thread `by`.
#[derive(Clone, Copy, PartialEq, Eq, Debug)]
pub struct ActionId {
    pub by: ThreadId,
    pub index: u32,
}
