ghost use Rattle.std.specs.Prelude.{◌≡◌, ◌≤◌, [], IfOk};
ghost use Rattle.std.specs.Option.{ForSome};

use crate::lane::Lane;
use std::alloc::{AllocError, Global};

/// The memory of a lane that was given up, for the next one: each theft that takes the last item of a deque gives one up and wants another.
#[derive(Drop)]
pub(crate) struct SpareLane<T> {
    lane: Option<Lane<T>>,
    pub ghost empty: { ForSome lane (λ lane. lane.items ≡ []) },
}

impl<T> SpareLane<T> {
    /// Nothing is kept.
    pub(crate) fn none() -> SpareLane<T> {
        SpareLane { lane: None }
    }

    /// Keeps the memory of a lane without items.
    pub(crate) fn keep(&mut self, lane: Lane<T>)
        requires { lane.items ≡ [] }
    {
        if let Some(other) = self.lane.replace(lane) {
            other.destroy_empty();
        }
    }

    /// A lane without items, with room for one.
    ///
    /// # Errors
    ///
    /// There is not enough memory.
    pub(crate) fn lane(&mut self, alloc: Global) -> Result<Lane<T>, AllocError>
        ensures items { IfOk result (λ lane. lane.items ≡ []) }
        ensures room { IfOk result (λ lane. 1 ≤ lane.spare) }
    {
        match self.lane.take() {
            Some(lane) => with_room(lane),
            None => Lane::with_room(alloc),
        }
    }
}

/// The same lane, with room for an item.
///
/// # Errors
///
/// There is not enough memory.
fn with_room<T>(lane: Lane<T>) -> Result<Lane<T>, AllocError>
    requires { lane.items ≡ [] }
    ensures items { IfOk result (λ lane. lane.items ≡ []) }
    ensures room { IfOk result (λ lane. 1 ≤ lane.spare) }
{
    let mut lane = lane;
    match lane.reserve() {
        Ok(()) => Ok(lane),
        Err(error) => {
            lane.destroy_empty();
            Err(error)
        }
    }
}
