use crate::deque_id::DequeId;

/// A deque's place in the order: its id, and the worker that owns it, if any.
#[derive(Clone, Copy, PartialEq, Eq, Debug)]
pub struct Place {
    pub id: DequeId,
    pub owner: Option<u32>,
}
