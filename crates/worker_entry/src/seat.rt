ghost use Rattle.std.specs.Prelude.{◌≡◌};

use deque_list::DequeId;
use hall_owner::SeatMemory;
use hall_slots::HallPlace;
use play_rules::Stop;

/// The right of one worker to work in a hall.
#[derive(Drop)]
pub struct Seat {
    pub place: HallPlace,
    pub worker: u32,
    pub places: u32,
    /// The deque that it owns, if any.
    pub owned: Option<DequeId>,
    /// The stop that it found, if any.
    pub stop: Option<Stop>,
    /// The memory that it has for its next event.
    pub memory: SeatMemory,
}

impl Seat {
    /// The worker of the seat.
    pub fn worker(&self) -> u32
        ensures { result ≡ self.now.worker }
    {
        self.worker
    }

    /// How many places it has. The places of all seats of a hall sum to its workers.
    pub fn places(&self) -> u32
        ensures { result ≡ self.now.places }
    {
        self.places
    }

    /// The deque that the worker owns; None exactly while it is idle.
    pub fn owns(&self) -> Option<DequeId>
        ensures { result ≡ self.now.owned }
    {
        self.owned
    }

    /// The stop that the seat found; None exactly while it has found none.
    pub fn found(&self) -> Option<Stop>
        ensures { result ≡ self.now.stop }
    {
        self.stop
    }
}
