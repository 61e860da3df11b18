//! How workers enter, and how a stop is kept.

ghost use Rattle.std.specs.Prelude.{◌≡◌, Some, IfOk, IsOk, MatchResult};
ghost use Rattle.hall_slots.specs.Takes.{IsRefused};
ghost use Rattle.hall_slots.specs.Halting.{HasHalted};
ghost use Rattle.worker_entry.specs.Seated.{Enters, FindsListFree, IsIn, SameSeat};

use crate::hall::Hall;
use crate::refused::EnterRefused;
use crate::seat::Seat;
use hall_owner::SeatMemory;
use hall_slots::{enter, halt};
use play_rules::{RunEnd, Stop};
use turn_table::Held;

impl Hall {
    /// Lets a worker enter by a seat that has two places, of which it gives one. The worker is idle and has the smallest free number.
    ///
    /// # Errors
    ///
    /// The seat has one place, another seat holds the list, an end is kept there, or there is not enough memory.
    pub fn enter(&self, by: &mut Seat) -> Result<Seat, EnterRefused>
        requires { IsIn self.now by.old }
        ensures here { IsIn self.now by.new }
        ensures made { IfOk result (λ made. IsIn self.now made) }
        ensures seat { Enters self.now by.old by.new result }
        ensures lone { by.old.places ≡ self.now.workers → FindsListFree result }
    {
        if by.places < 2 {
            return Err(EnterRefused::Crowded { places: by.places });
        }
        match enter(&self.row, &mut by.place, self.workers) {
            Ok((place, worker)) => {
                by.places -= 1;
                Ok(Seat {
                    place,
                    worker,
                    places: 1,
                    owned: None,
                    stop: None,
                    memory: SeatMemory::new(self.alloc),
                })
            }
            Err(hall_slots::EnterRefused::Busy(held)) => Err(EnterRefused::Busy(held)),
            Err(hall_slots::EnterRefused::Over(end)) => Err(EnterRefused::Over(end)),
            Err(hall_slots::EnterRefused::OutOfMemory) => Err(EnterRefused::OutOfMemory),
        }
    }

    /// Keeps the stop that a seat found, unless an end is kept already. Returns the end that is kept then.
    ///
    /// # Errors
    ///
    /// Another seat holds the list (never, if this one has all places).
    pub fn halt(&self, seat: &mut Seat, stop: Stop) -> Result<RunEnd, Held>
        requires here { IsIn self.now seat.old }
        requires found { seat.old.stop ≡ Some stop }
        ensures here { IsIn self.now seat.new }
        ensures same { SameSeat seat.old seat.new }
        ensures seat { MatchResult result (λ end. HasHalted seat.old.place stop end seat.new.place)
            (λ held. IsRefused seat.old.place 0 held seat.new.place) }
        ensures lone { seat.old.places ≡ self.now.workers → IsOk result }
    {
        halt(&self.row, &mut seat.place, stop)
    }
}
