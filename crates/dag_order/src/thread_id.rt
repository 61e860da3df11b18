/// The name of a thread by its birth: it was forked as number `nth`, from 0, in the period `period`.
///
/// Periods count from 1. The root was forked in none, and is [`ThreadId::ROOT`].
#[derive(Clone, Copy, PartialEq, Eq, PartialOrd, Ord, Hash, Debug)]
pub struct ThreadId {
    pub period: u32,
    pub nth: u32,
}

impl ThreadId {
    pub const ROOT: ThreadId = ThreadId { period: 0, nth: 0 };
}
