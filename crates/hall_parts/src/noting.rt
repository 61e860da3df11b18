use deque_list::DequeId;
use hall_slots::Event;
use play_rules::{RunEnd, Stop};

/// What a seat notes when it puts back what it took.
#[derive(Clone, Copy, PartialEq, Eq, Debug)]
pub enum Noting {
    /// Nothing new.
    Same,
    /// The stop that it found.
    Found(Stop),
    /// Its event, after which it owns this deque, or none.
    Does { event: Event, owns: Option<DequeId> },
    /// That it gave up this deque where the rules did not ask for it.
    Yields(DequeId),
    /// That it gave up this deque, and has left.
    Leaves(DequeId),
    /// That it gave up this deque, and was answered this end, which is kept.
    Closes { deque: DequeId, end: RunEnd },
    /// The stop that it found, and that it was answered this end, which is kept: the stop, unless an end was kept before.
    Halts { stop: Stop, end: RunEnd },
}
