//! How a worker that owns a deque acts, or goes on without an event.

ghost use Rattle.std.specs.Prelude.{◌≡◌, Some};
ghost use Rattle.worker_entry.specs.Owners.{ActsIn};
ghost use Rattle.worker_entry.specs.Seated.{IsIn, IsProgramOf};
ghost use Rattle.worker_entry.specs.Thieves.{IsNotBusy};
ghost use Rattle.worker_entry.specs.Steps.{IsNeverBusy, StepsIn};

use crate::hall::Hall;
use crate::refused::EventRefused;
use crate::seat::Seat;
use deque_list::DequeId;
use hall_owner::{ActRefused, act, step_on};
use hall_slots::Event;
use thread_frames::Code;

impl Hall {
    /// Does the next event of a worker that owns a deque: its top thread does its next action, or waits for a child, or the deque is given up. The
    /// seat says then which deque it owns, if any. Which event it is, is shown by what the seat saw: its lane, and the list, the pool and the count
    /// if it took them.
    ///
    /// # Errors
    ///
    /// Another seat holds a slot that the event needs (never, if this one has all places), or an end is kept in the list that it took. Or the
    /// seat found a stop before, or finds one now: the words of the action do not fit the arena, there is not enough memory, or as many actions as
    /// are allowed were counted. What the seat saw shows which. The stop is not kept in the list yet. The moment of the hall is what it was.
    pub fn act(&self, code: &Code, seat: &mut Seat) -> Result<Event, EventRefused>
        requires program { IsProgramOf self.now code.now }
        requires here { IsIn self.now seat.old }
        requires owns { (deque : DequeId) × (seat.old.owned ≡ Some deque) }
        ensures here { IsIn self.now seat.new }
        ensures seat { ActsIn self.now seat.old seat.new result }
        ensures lone { seat.old.places ≡ self.now.workers → IsNotBusy result }
    {
        if let Some(stop) = seat.stop {
            return Err(EventRefused::Stopped(stop));
        }
        let Some(deque) = seat.owned else {
            unreachable!();
        };
        match act(
            &self.row,
            &mut seat.place,
            deque,
            code,
            self.quota,
            self.limit,
            self.alloc,
            &mut seat.memory,
        ) {
            Ok(acted) => {
                seat.owned = acted.owned;
                Ok(acted.event)
            }
            Err(ActRefused::Busy(held)) => Err(EventRefused::Busy(held)),
            Err(ActRefused::Over(end)) => Err(EventRefused::Over(end)),
            Err(ActRefused::Stopped(stop)) => {
                seat.stop = Some(stop);
                Err(EventRefused::Stopped(stop))
            }
        }
    }

    /// Lets the top thread of a worker's deque go on towards its next action for some `most` turns of loops and calls, and says whether it
    /// has come there. No event is done, and the moment of the hall is what it was: the seat takes its lane and
    /// puts it back, so that a thief may take the lane between two such calls.
    ///
    /// # Errors
    ///
    /// Another seat holds the lane (never, if this one has all places). Or the seat found a stop before, or finds one now: there is not enough
    /// memory.
    pub fn step_on(&self, code: &Code, seat: &mut Seat, most: u32) -> Result<bool, EventRefused>
        requires program { IsProgramOf self.now code.now }
        requires here { IsIn self.now seat.old }
        requires owns { (deque : DequeId) × (seat.old.owned ≡ Some deque) }
        ensures here { IsIn self.now seat.new }
        ensures seat { StepsIn self.now seat.old seat.new result }
        ensures lone { seat.old.places ≡ self.now.workers → IsNeverBusy result }
    {
        if let Some(stop) = seat.stop {
            return Err(EventRefused::Stopped(stop));
        }
        let Some(deque) = seat.owned else {
            unreachable!();
        };
        match step_on(
            &self.row,
            &mut seat.place,
            deque,
            code,
            self.quota,
            self.alloc,
            most,
        ) {
            Ok(came) => Ok(came),
            Err(ActRefused::Busy(held)) => Err(EventRefused::Busy(held)),
            Err(ActRefused::Over(_)) => unreachable!(),
            Err(ActRefused::Stopped(stop)) => {
                seat.stop = Some(stop);
                Err(EventRefused::Stopped(stop))
            }
        }
    }
}
