//! How a worker gives its deque up, and how it leaves.

ghost use Rattle.std.specs.Prelude.{◌≡◌, ◌≢◌, None, Some, IfErr, OnErr, OnOk};
ghost use Rattle.hall_slots.specs.Leaving.{HasGone};
ghost use Rattle.play_rules.specs.declared.stop.Stop.TheVariants.{OutOfMemory as NoMemory};
ghost use Rattle.turn_table.specs.Tables.{IsSeatOf};
ghost use Rattle.worker_entry.specs.Leaving.{GivesUpIn, KeepsItsStop, LeavesHall, LeavesIdle, LeavesOwner};
ghost use Rattle.worker_entry.specs.Seated.{IsIn};
ghost use Rattle.worker_entry.specs.Thieves.{IsNotBusy};

use crate::hall::Hall;
use crate::refused::{EventRefused, LeaveRefused};
use crate::seat::Seat;
use deque_list::DequeId;
use hall_owner::{ActRefused, YieldRefused, give_up_deque, leave_deque, stop_then};
use hall_slots::{Event, join, leave};
use play_rules::Stop;

impl Hall {
    /// Gives the deque of a seat up though nothing asks for it. Anybody may steal it then. No statement of its threads runs.
    ///
    /// # Errors
    ///
    /// Another seat holds the lane of the deque or the list (never, if this one has all places), or an end is kept in the list. Or the seat found a
    /// stop before, or there is not enough memory now: this is the stop that it finds, which is not kept in the list yet. The moment of the hall is
    /// what it was.
    pub fn give_up(&self, seat: &mut Seat) -> Result<Event, EventRefused>
        requires here { IsIn self.now seat.old }
        requires owns { (deque : DequeId) × (seat.old.owned ≡ Some deque) }
        ensures here { IsIn self.now seat.new }
        ensures seat { GivesUpIn seat.old seat.new result }
        ensures lone { seat.old.places ≡ self.now.workers → IsNotBusy result }
    {
        if let Some(stop) = seat.stop {
            return Err(EventRefused::Stopped(stop));
        }
        let Some(deque) = seat.owned else {
            unreachable!();
        };
        match give_up_deque(&self.row, &mut seat.place, deque) {
            Ok(()) => {
                seat.owned = None;
                Ok(Event::GaveUp(deque))
            }
            Err(ActRefused::Busy(held)) => Err(EventRefused::Busy(held)),
            Err(ActRefused::Over(end)) => Err(EventRefused::Over(end)),
            Err(ActRefused::Stopped(stop)) => {
                seat.stop = Some(stop);
                Err(EventRefused::Stopped(stop))
            }
        }
    }

    /// Lets the worker of a seat leave: a deque that it owns is given up by the same put back, also where an end is kept, the stop that it found is
    /// kept in the list unless an end is, and `into` has its places besides its own.
    ///
    /// # Errors
    ///
    /// Another seat holds the lane of the deque or the list: the seat comes back as it was. Or it owns a deque and there is not enough memory to give
    /// it up: now, or when the seat found this, since then its top thread may be in the middle of a statement. Then the list keeps the stop that the
    /// seat had found, or this one, unless an end is kept.
    pub fn leave(&self, seat: Seat, into: &mut Seat) -> Result<(), (Seat, LeaveRefused)>
        requires here { IsIn self.now seat }
        requires into { IsIn self.now into.old }
        ensures into { IsIn self.now into.new }
        ensures here { IfErr result (λ back. IsIn self.now back.0) }
        ensures seat { LeavesHall self.now seat into.old into.new result }
    {
        match seat.owned {
            Some(_) => leave_owner(self, seat, into),
            None => leave_idle(self, seat, into),
        }
    }
}

/// Keeps the stop of a seat in the list, unless an end is kept, for lack of memory to give its deque up.
fn keep_stop(hall: &Hall, seat: Seat) -> (Seat, LeaveRefused)
    requires here { IsIn hall.now seat }
    requires short { seat.stop ≡ Some NoMemory }
    ensures here { IsIn hall.now result.0 }
    ensures seat { KeepsItsStop seat result }
{
    let mut seat = seat;
    match hall.halt(&mut seat, Stop::OutOfMemory) {
        Ok(_) => (seat, LeaveRefused::OutOfMemory),
        Err(held) => (seat, LeaveRefused::Busy(held)),
    }
}

/// Gives the deque of a seat up and lets its worker leave, by one put back. Fails if another seat holds the lane of the deque or the list, or there
/// is not enough memory to give the deque up.
fn leave_with_deque(hall: &Hall, seat: &mut Seat) -> Result<(), LeaveRefused>
    requires here { IsIn hall.now seat.old }
    requires owns { (deque : DequeId) × (seat.old.owned ≡ Some deque) }
    requires calm { seat.old.stop ≢ Some NoMemory }
    ensures here { OnErr result (IsIn hall.now seat.new) }
    ensures gone { OnOk result (HasGone seat.new.place × IsSeatOf hall.now.row seat.new.place) }
    ensures seat { LeavesOwner seat.old result seat.new }
{
    let Some(deque) = seat.owned else {
        unreachable!();
    };
    match leave_deque(&hall.row, &mut seat.place, deque, seat.worker, seat.stop) {
        Ok(()) => Ok(()),
        Err(YieldRefused::Busy(held)) => Err(LeaveRefused::Busy(held)),
        Err(YieldRefused::OutOfMemory) => {
            seat.stop = Some(stop_then(seat.stop));
            Err(LeaveRefused::OutOfMemory)
        }
    }
}

/// What `leave` does of a seat that owns a deque.
fn leave_owner(hall: &Hall, seat: Seat, into: &mut Seat) -> Result<(), (Seat, LeaveRefused)>
    requires here { IsIn hall.now seat }
    requires into { IsIn hall.now into.old }
    requires owns { (deque : DequeId) × (seat.owned ≡ Some deque) }
    ensures into { IsIn hall.now into.new }
    ensures here { IfErr result (λ back. IsIn hall.now back.0) }
    ensures seat { LeavesHall hall.now seat into.old into.new result }
{
    if let Some(Stop::OutOfMemory) = seat.stop {
        return Err(keep_stop(hall, seat));
    }
    let mut seat = seat;
    match leave_with_deque(hall, &mut seat) {
        Ok(()) => {
            let Seat { place, places, .. } = seat;
            join(&hall.row, &mut into.place, place);
            into.places += places.min(hall.workers - into.places);
            Ok(())
        }
        Err(why) => Err((seat, why)),
    }
}

/// What `leave` does of a seat that owns no deque.
fn leave_idle(hall: &Hall, seat: Seat, into: &mut Seat) -> Result<(), (Seat, LeaveRefused)>
    requires here { IsIn hall.now seat }
    requires into { IsIn hall.now into.old }
    requires idle { seat.owned ≡ None }
    ensures into { IsIn hall.now into.new }
    ensures here { IfErr result (λ back. IsIn hall.now back.0) }
    ensures seat { LeavesIdle hall.now seat into.old into.new result }
{
    let Seat {
        place,
        worker,
        places,
        owned,
        stop,
        memory,
    } = seat;
    match leave(&hall.row, place, &mut into.place, worker, stop) {
        Ok(()) => {
            into.places += places.min(hall.workers - into.places);
            Ok(())
        }
        Err((place, held)) => Err((
            Seat {
                place,
                worker,
                places,
                owned,
                stop,
                memory,
            },
            LeaveRefused::Busy(held),
        )),
    }
}
