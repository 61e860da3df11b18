use crate::thread_id::ThreadId;
use containers::BoundedList;

/// How a thread came to be: it is the fork `ordinal`, from 1, of the thread `parent`.
#[derive(Clone, Copy, PartialEq, Eq, Debug)]
pub struct Birth {
    pub parent: ThreadId,
    pub ordinal: u32,
}

/// The births of one period, in order.
pub type Births = BoundedList<Birth>;
