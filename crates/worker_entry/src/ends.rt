//! How a hall is closed.

ghost use Rattle.std.specs.Prelude.{◌≡◌, ◌≢◌, ◌<◌, Err, None, Some, IfErr, MatchResult};
ghost use Rattle.hall_slots.specs.Closing.{IsClosed};
ghost use Rattle.hall_slots.specs.declared.list_slot.ListSlot.{ListSlot as AnyList};
ghost use Rattle.hall_slots.specs.declared.pool_slot.PoolSlot.{PoolSlot as AnyPool};
ghost use Rattle.hall_owner.specs.Yielding.{IsNotHeld, MayBeOver};
ghost use Rattle.play_rules.specs.declared.ends.RunEnd.{RunEnd as AnyEnd};
ghost use Rattle.play_rules.specs.declared.stop.Stop.TheVariants.{OutOfMemory as NoMemory};
ghost use Rattle.turn_table.specs.Tables.{key_of};
ghost use Rattle.worker_entry.specs.Closing.{Closes, ClosesAlone, GivesClosing, LetsGoOf, MayHaveEnded};
ghost use Rattle.worker_entry.specs.Seated.{IsIn};

use crate::closing::Closing;
use crate::hall::Hall;
use crate::refused::CloseRefused;
use crate::seat::Seat;
use dag_order::ThreadId;
use deque_list::DequeId;
use dfd_core::root_of;
use hall_owner::{LastRefused, close_deque, stop_then};
use hall_slots::{ClosedHall, ListSlot, PoolSlot, close, close_at, see_end};
use list_changes::ListPart;
use play_rules::{RunEnd, Stop};

/// What is left of a hall that is closed.
fn closing_of(closed: ClosedHall) -> Closing
    ensures { GivesClosing closed.list closed.pool closed.end result }
{
    let ClosedHall { end, list, pool } = closed;
    let ListSlot { part, .. } = list.into_inner();
    let ListPart {
        mut results,
        books,
        ..
    } = part;
    let PoolSlot { moves, .. } = pool;
    Closing {
        end,
        root: root_of(end, results.take(ThreadId::ROOT)),
        books,
        moves,
    }
}

impl Hall {
    /// Closes the hall with the seat that has all places, and gives what is left of its run. A deque that the seat owns is given up first. The end is
    /// the one that the seat was answered, if it was answered one.
    ///
    /// # Errors
    ///
    /// Another seat has places, or no end is kept. Or the seat owns a deque and there is not enough memory to give it up: now, or when it found this.
    /// The hall and the seat come back, and the moment of the hall is what it was.
    pub fn close(self, last: Seat) -> Result<Closing, (Hall, Seat, CloseRefused)>
        requires here { IsIn self last }
        ensures closed { Closes self last result }
        ensures told { (end : AnyEnd) → last.place.hand.note.answered ≡ Some end
            → MatchResult result (λ closing. closing.end ≡ end) (λ back. MayHaveEnded back.2) }
        ensures here { IfErr result (λ back. IsIn back.0 back.1) }
    {
        if last.places < self.workers {
            let places = last.places;
            return Err((self, last, CloseRefused::StillIn { places }));
        }
        match last.owned {
            Some(_) => close_owner(self, last),
            None => close_alone(self, last),
        }
    }
}

/// Gives the deque of a seat up where an end is kept, for a seat that has all places. Fails if no end is kept, or there is not enough memory, which
/// the seat notes as its stop if it had found none.
fn let_go(hall: &Hall, seat: &mut Seat) -> Result<RunEnd, LastRefused>
    requires here { IsIn hall.now seat.old }
    requires owns { (deque : DequeId) × (seat.old.owned ≡ Some deque) }
    requires calm { seat.old.stop ≢ Some NoMemory }
    ensures here { IsIn hall.now seat.new }
    ensures seat { LetsGoOf seat.old result seat.new }
    ensures told { (end : AnyEnd) → seat.old.place.hand.note.answered ≡ Some end → MatchResult result (λ kept. kept ≡ end) MayBeOver }
    ensures lone { seat.old.places ≡ hall.now.workers → IsNotHeld result }
{
    let Some(deque) = seat.owned else {
        unreachable!();
    };
    match close_deque(&hall.row, &mut seat.place, deque, seat.stop) {
        Ok(end) => {
            seat.owned = None;
            Ok(end)
        }
        Err(LastRefused::OutOfMemory) => {
            seat.stop = Some(stop_then(seat.stop));
            Err(LastRefused::OutOfMemory)
        }
        Err(LastRefused::NotOver) => Err(LastRefused::NotOver),
        Err(LastRefused::Busy(held)) => Err(LastRefused::Busy(held)),
    }
}

/// What is left of a hall whose last seat owns no deque and was answered this end.
fn close_over(hall: Hall, last: Seat, end: RunEnd) -> Closing
    requires here { IsIn hall last }
    requires idle { last.owned ≡ None }
    requires alone { last.places ≡ hall.workers }
    requires answered { last.place.hand.note.answered ≡ Some end }
    ensures { (list : AnyList) × (pool : AnyPool) × IsClosed (key_of hall.row) last.place list pool result.end
        × GivesClosing list pool result.end result × (result.end ≡ end) }
{
    let Hall { row, .. } = hall;
    let Seat { place, .. } = last;
    closing_of(close_at(row, place, end))
}

/// Why a hall is not closed by a seat that owns a deque and has found lack of memory.
fn close_short(hall: Hall, last: Seat) -> (Hall, Seat, CloseRefused)
    requires here { IsIn hall last }
    requires short { last.stop ≡ Some NoMemory }
    requires alone { last.places ≡ hall.workers }
    ensures closed { Closes hall last (Err result) }
    ensures told { (end : AnyEnd) → last.place.hand.note.answered ≡ Some end → MayHaveEnded result.2 }
    ensures here { IsIn result.0 result.1 }
{
    let mut last = last;
    match see_end(&hall.row, &mut last.place) {
        Ok(Some(_)) => (hall, last, CloseRefused::OutOfMemory),
        Ok(None) => (hall, last, CloseRefused::NotOver),
        Err(_) => unreachable!(),
    }
}

/// What `close` does once the seat is the only one, if it owns a deque.
fn close_owner(hall: Hall, last: Seat) -> Result<Closing, (Hall, Seat, CloseRefused)>
    requires here { IsIn hall last }
    requires owns { (deque : DequeId) × (last.owned ≡ Some deque) }
    requires alone { last.places ≡ hall.workers }
    ensures closed { Closes hall last result }
    ensures told { (end : AnyEnd) → last.place.hand.note.answered ≡ Some end
        → MatchResult result (λ closing. closing.end ≡ end) (λ back. MayHaveEnded back.2) }
    ensures here { IfErr result (λ back. IsIn back.0 back.1) }
{
    if let Some(Stop::OutOfMemory) = last.stop {
        return Err(close_short(hall, last));
    }
    let mut last = last;
    match let_go(&hall, &mut last) {
        Ok(end) => Ok(close_over(hall, last, end)),
        Err(LastRefused::NotOver) => Err((hall, last, CloseRefused::NotOver)),
        Err(LastRefused::OutOfMemory) => Err((hall, last, CloseRefused::OutOfMemory)),
        Err(LastRefused::Busy(_)) => unreachable!(),
    }
}

/// What `close` does once the seat is the only one, and owns no deque.
fn close_alone(hall: Hall, last: Seat) -> Result<Closing, (Hall, Seat, CloseRefused)>
    requires here { IsIn hall last }
    requires idle { last.owned ≡ None }
    requires alone { last.places ≡ hall.workers }
    ensures closed { ClosesAlone hall last result }
    ensures told { (end : AnyEnd) → last.place.hand.note.answered ≡ Some end → MatchResult result (λ closing. closing.end ≡ end) (λ back. ⊥) }
    ensures here { IfErr result (λ back. IsIn back.0 back.1) }
{
    let Hall {
        row,
        quota,
        workers,
        limit,
        alloc,
    } = hall;
    let Seat {
        place,
        worker,
        places,
        owned,
        stop,
        memory,
    } = last;
    match close(row, place) {
        Ok(closed) => Ok(closing_of(closed)),
        Err((row, place)) => Err((
            Hall {
                row,
                quota,
                workers,
                limit,
                alloc,
            },
            Seat {
                place,
                worker,
                places,
                owned,
                stop,
                memory,
            },
            CloseRefused::NotOver,
        )),
    }
}
