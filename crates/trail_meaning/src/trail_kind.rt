/// What a worker did in one event.
#[derive(Clone, Copy, PartialEq, Eq, Debug)]
pub enum TrailKind {
    /// It took the bottom thread of the deque at this place, from 0 at the left.
    Steal(u32),
    /// Its top thread did its next action.
    Act,
    /// Its top thread began to wait for a child.
    Suspend,
    /// It left its deque.
    GiveUp,
}
