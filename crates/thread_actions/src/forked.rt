use containers::Boxed;
use dag_order::ActionId;
use thread_frames::Thread;

/// What a Fork brings.
#[derive(Drop)]
pub struct Forked {
    /// The name of the Fork.
    pub name: ActionId,
    /// Which of the forks of its thread it is, from 1.
    pub ordinal: u32,
    /// The child, before its first action.
    pub child: Boxed<Thread>,
}
