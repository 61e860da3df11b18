//! How a hall begins.

ghost use Rattle.std.specs.Prelude.{IfOk};
ghost use Rattle.dfd_core.specs.Parts.{IsFresh};
ghost use Rattle.worker_entry.specs.Opening.{IsFirstSeat, IsHallOf};
ghost use Rattle.worker_entry.specs.Seated.{IsIn, IsProgramOf};

use crate::entry::open_hall;
use crate::hall::Hall;
use crate::seat::Seat;
use dfd_core::Core;
use hall_owner::SeatMemory;
use std::alloc::{AllocError, Global};
use thread_frames::Code;

impl Hall {
    /// The hall of a core that has done no step, its program, and its first seat, which has the places of all workers.
    ///
    /// # Errors
    ///
    /// There is not enough memory.
    pub fn new(alloc: Global, core: Core) -> Result<(Hall, Code, Seat), AllocError>
        requires { IsFresh core }
        ensures here { IfOk result (λ made. IsIn made.0 made.2) }
        ensures program { IfOk result (λ made. IsProgramOf made.0 made.1) }
        ensures hall { IfOk result (λ made. IsHallOf core made.0 made.1) }
        ensures seat { IfOk result (λ made. IsFirstSeat made.0 made.2) }
    {
        let quota = core.quota();
        let workers = core.workers();
        let limit = core.limit();
        let (row, place, code) = open_hall(alloc, core)?;
        let hall = Hall {
            row,
            quota,
            workers,
            limit,
            alloc,
        };
        let seat = Seat {
            place,
            worker: 0,
            places: workers,
            owned: None,
            stop: None,
            memory: SeatMemory::new(alloc),
        };
        Ok((hall, code, seat))
    }
}
