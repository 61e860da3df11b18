//! How a worker that owns no deque holds the list, and steals.

ghost use Rattle.std.specs.Prelude.{◌≡◌, None, IfErr, IfOk, IsOk};
ghost use Rattle.worker_entry.specs.declared.seat.Seat.{Seat as AnySeat};
ghost use Rattle.worker_entry.specs.Held.{HoldsList, HasSeenList, IsHeldBy, IsListHeld, StealsHeld, TakesList};
ghost use Rattle.worker_entry.specs.Seated.{IsIn};
ghost use Rattle.worker_entry.specs.Thieves.{answer_of, deque_of, settled, IsNotBusy, StealsIn};

use crate::hall::Hall;
use crate::refused::EventRefused;
use crate::seat::Seat;
use containers::Boxed;
use deque_list::DequeId;
use hall_slots::{Event, ListSlot, give_list_back, take_list};
use hall_thief::{StealRefused, steal};
use turn_table::Held;

/// The deque that a steal gave; None for any other event.
fn deque_of(event: Event) -> Option<DequeId>
    ensures { result ≡ deque_of event }
{
    match event {
        Event::Stole { deque, .. } => Some(deque),
        Event::Did(_) | Event::Suspended(_) | Event::GaveUp(_) | Event::Halted(_) => None,
    }
}

/// Lets a seat say what its steal came to: it owns the deque that it stole, or has found a stop.
fn settle(seat: &mut Seat, stolen: Result<Event, StealRefused>) -> Result<Event, EventRefused>
    ensures answer { result ≡ answer_of stolen }
    ensures seat { seat.new ≡ settled seat.old stolen }
{
    match stolen {
        Ok(event) => {
            seat.owned = deque_of(event);
            Ok(event)
        }
        Err(StealRefused::Busy(held)) => Err(EventRefused::Busy(held)),
        Err(StealRefused::Nothing) => Err(EventRefused::Nothing),
        Err(StealRefused::Over(end)) => Err(EventRefused::Over(end)),
        Err(StealRefused::Stopped(stop)) => {
            seat.stop = Some(stop);
            Err(EventRefused::Stopped(stop))
        }
    }
}

/// Steals with the list that a seat holds, which has found no stop.
pub(crate) fn steal_with(
    hall: &Hall,
    seat: &mut Seat,
    list: Boxed<ListSlot>,
    word: u64,
) -> Result<Event, EventRefused>
    requires held { (before : AnySeat) × HoldsList hall.now before list seat.old }
    requires none { seat.old.stop ≡ None }
    ensures here { IsIn hall.now seat.new }
    ensures seat { (before : AnySeat) → HoldsList hall.now before list seat.old → StealsIn hall.now word before seat.new result }
    ensures lone { seat.old.places ≡ hall.now.workers → IsNotBusy result }
{
    let worker = seat.worker;
    let stolen = steal(
        &hall.row,
        &mut seat.place,
        hall.alloc,
        worker,
        list,
        hall.workers,
        word,
    );
    settle(seat, stolen)
}

impl Hall {
    /// Steals from the first deque in reach that has a thread to steal, in the order that a word picks: takes it over if nobody owns it and it
    /// has one thread, and otherwise takes its bottom thread into a new deque to the right of it. The seat owns this deque then.
    ///
    /// # Errors
    ///
    /// Another seat holds a slot that the steal needs, no deque in reach has a thread to steal, or an end is kept. Or the seat found a stop
    /// before, or finds one now: no further deque is allowed, or there is not enough memory. The list keeps what it finds now.
    pub fn steal(&self, seat: &mut Seat, word: u64) -> Result<Event, EventRefused>
        requires here { IsIn self.now seat.old }
        requires idle { seat.old.owned ≡ None }
        ensures here { IsIn self.now seat.new }
        ensures seat { StealsIn self.now word seat.old seat.new result }
        ensures lone { seat.old.places ≡ self.now.workers → IsNotBusy result }
    {
        if let Some(stop) = seat.stop {
            return Err(EventRefused::Stopped(stop));
        }
        match take_list(&self.row, &mut seat.place) {
            Ok(list) => steal_with(self, seat, list, word),
            Err(held) => Err(EventRefused::Busy(held)),
        }
    }
}

/// A seat that holds the list of its hall. No other seat can take the list before this one steals ([`ListHeld::steal`]) or puts it back
/// ([`ListHeld::put_back`]). One of the two has to be called: a value of this type cannot be dropped.
pub struct ListHeld<'a> {
    pub(crate) hall: &'a Hall,
    pub(crate) seat: Seat,
    pub(crate) list: Boxed<ListSlot>,
}

impl Hall {
    /// Takes the list for a seat that owns no deque, and holds it.
    ///
    /// # Errors
    ///
    /// Another seat holds the list (never, if this one has all places). The seat comes back.
    pub fn hold_list(&self, seat: Seat) -> Result<ListHeld<'_>, (Seat, Held)>
        requires here { IsIn self.now seat }
        requires idle { seat.owned ≡ None }
        ensures held { IfOk result IsListHeld }
        ensures seat { TakesList self.now seat result }
        ensures here { IfErr result (λ back. IsIn self.now back.0) }
        ensures lone { seat.places ≡ self.now.workers → IsOk result }
    {
        let mut seat = seat;
        match take_list(&self.row, &mut seat.place) {
            Ok(list) => Ok(ListHeld {
                hall: self,
                seat,
                list,
            }),
            Err(held) => Err((seat, held)),
        }
    }
}

impl ListHeld<'_> {
    /// Steals as [`Hall::steal`] does, with the list that the seat holds, and puts the list back.
    ///
    /// # Errors
    ///
    /// Another seat holds a lane that the steal needs, no deque in reach has a thread to steal, or an end is kept. Or the seat found a stop
    /// before, or finds one now: no further deque is allowed, or there is not enough memory. The list keeps what it finds now.
    pub fn steal(self, word: u64) -> (Seat, Result<Event, EventRefused>)
        requires { IsListHeld self }
        ensures here { IsIn self.entry.hall.now result.0 }
        ensures seat { (before : AnySeat) → IsHeldBy before self.entry
            → StealsHeld self.entry.hall.now word self.entry.list before result.0 result.1 }
        ensures lone { self.entry.seat.places ≡ self.entry.hall.now.workers → IsNotBusy result.1 }
    {
        let ListHeld { hall, seat, list } = self;
        let mut seat = seat;
        let answer = steal_held(hall, &mut seat, list, word);
        (seat, answer)
    }

    /// Puts the list back as it was.
    pub fn put_back(self) -> Seat
        requires { IsListHeld self }
        ensures here { IsIn self.entry.hall.now result }
        ensures seat { (before : AnySeat) → IsHeldBy before self.entry → HasSeenList before self.entry.list result }
    {
        let ListHeld { hall, seat, list } = self;
        let mut seat = seat;
        put_back(hall, &mut seat, list);
        seat
    }
}

/// Puts the list back that a seat holds.
fn put_back(hall: &Hall, seat: &mut Seat, list: Boxed<ListSlot>)
    requires { (before : AnySeat) × HoldsList hall.now before list seat.old }
    ensures here { IsIn hall.now seat.new }
    ensures seat { (before : AnySeat) → HoldsList hall.now before list seat.old → HasSeenList before list seat.new }
{
    give_list_back(&hall.row, &mut seat.place, list);
}

/// Steals with the list that a seat holds, unless it has found a stop.
fn steal_held(
    hall: &Hall,
    seat: &mut Seat,
    list: Boxed<ListSlot>,
    word: u64,
) -> Result<Event, EventRefused>
    requires { (before : AnySeat) × HoldsList hall.now before list seat.old }
    ensures here { IsIn hall.now seat.new }
    ensures seat { (before : AnySeat) → HoldsList hall.now before list seat.old → StealsHeld hall.now word list before seat.new result }
    ensures lone { seat.old.places ≡ hall.now.workers → IsNotBusy result }
{
    if let Some(stop) = seat.stop {
        put_back(hall, seat, list);
        return Err(EventRefused::Stopped(stop));
    }
    steal_with(hall, seat, list, word)
}
