use crate::ready::Ready;
use thread_stack::Frame;

/// What a step comes to.
#[derive(Drop)]
pub enum Done {
    /// It does no action, and these frames come before what is left: `first`, and then `next`.
    Silent {
        first: Option<Frame>,
        next: Option<Frame>,
    },
    /// It prints a number, and does no action.
    Prints(i64),
    /// It is an action, which is not done yet.
    Acts(Ready),
}
