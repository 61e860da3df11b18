//! How an owner leaves, and how one gives its deque up as the hall is closed: also where an end is kept, and by one put back.

ghost use Rattle.std.specs.Prelude.{◌≡◌, ◌≢◌, ◌+◌, ◌<◌, [], None, Some, MatchResult, OnOk};
ghost use Rattle.dag_order.specs.declared.finish.Finish.{Finish as AnyFinish};
ghost use Rattle.play_rules.specs.declared.ends.RunEnd.{RunEnd as AnyEnd};
ghost use Rattle.play_rules.specs.declared.ends.RunEnd.TheVariants.{Finished};
ghost use Rattle.hall_actions.specs.Passed.HallNames.{key_of, slot_count, IsSeatOf, HasAllPlaces};
ghost use Rattle.hall_actions.specs.Passed.Puts.{HasPut};
ghost use Rattle.hall_owner.specs.Yielding.{halting_note, leaving_note, noting_then, stop_then, ClosesWith};
ghost use Rattle.hall_owner.specs.Yielding.{HasBoth, IsNotBusy, IsNotHeld, LeavesWith, MayBeOver, MayYield};

use crate::yields::{give_up_in, give_up_with, take_both};
use containers::Boxed;
use deque_list::DequeId;
use hall_actions::{Noting, put_list_and_lane};
use hall_slots::{HallPlace, HallRow, LaneSlot, ListSlot, end_of, keep_in, leave_in};
use play_rules::{RunEnd, Stop};
use std::alloc::AllocError;
use turn_table::Held;

/// Why an owner did not leave.
#[derive(Clone, Copy, PartialEq, Eq, Debug)]
pub enum YieldRefused {
    /// Another seat holds the lane or the list.
    Busy(Held),
    /// There is not enough memory.
    OutOfMemory,
}

/// Why no deque was given up as the hall is closed.
#[derive(Clone, Copy, PartialEq, Eq, Debug)]
pub enum LastRefused {
    /// Another seat holds the lane or the list.
    Busy(Held),
    /// No end is kept.
    NotOver,
    /// There is not enough memory.
    OutOfMemory,
}

/// The stop of a seat that is refused memory: the one that it had found, and else this.
pub fn stop_then(found: Option<Stop>) -> Stop
    ensures { result ≡ stop_then found }
{
    match found {
        Some(stop) => stop,
        None => Stop::OutOfMemory,
    }
}

/// What a seat notes that is refused memory and has found this stop or none.
fn noting_of(found: Option<Stop>) -> Noting
    ensures { result ≡ noting_then found }
{
    match found {
        Some(_) => Noting::Same,
        None => Noting::Found(Stop::OutOfMemory),
    }
}

/// Leaves with the deque, its lane and the list, if there is memory to close its period, and puts both back. Fails if there is not enough memory.
/// What was taken is put back with the stop of the seat in the list, unless an end is kept.
fn leave_with(
    row: &HallRow,
    seat: &mut HallPlace,
    deque: DequeId,
    list: Boxed<ListSlot>,
    lane: LaneSlot,
    worker: u32,
    found: Option<Stop>,
) -> Result<(), AllocError>
    requires here { IsSeatOf row.now seat.old }
    requires slot { deque.0 + 2 < slot_count row.now }
    requires both { HasBoth (key_of row.now) seat.old deque list lane }
    requires nobody { seat.old.hand.note.enters ≡ None }
    requires worker { seat.old.hand.note.worker ≡ worker }
    requires found { seat.old.hand.note.found ≡ found }
    ensures seat { MatchResult result (λ _. HasPut seat.old (leaving_note seat.old.hand.note deque) [] seat.new)
        (λ _. HasPut seat.old (halting_note seat.old.hand.note list) [] seat.new) }
{
    let mut list = list;
    match give_up_in(&mut list, deque, lane) {
        Ok(lane) => {
            leave_in(&mut list, worker, found);
            put_list_and_lane(row, seat, deque, list, lane, Noting::Leaves(deque));
            Ok(())
        }
        Err(lane) => {
            let stop = stop_then(found);
            let end = keep_in(&mut list, stop);
            put_list_and_lane(row, seat, deque, list, lane, Noting::Halts { stop, end });
            Err(AllocError)
        }
    }
}

/// Lets the worker of a seat leave with its deque, which is given up, also where an end is kept. The seat has found this stop or none, which the list
/// keeps unless an end is. No statement of its threads runs.
///
/// # Errors
///
/// Another seat holds the lane or the list (never, if this one has all places): the moment of the hall is what it was. Or there is not enough memory
/// to close the period, which the seat notes as its stop if it had found none: the list keeps its stop, unless an end is kept. The seat holds nothing.
pub fn leave_deque(
    row: &HallRow,
    seat: &mut HallPlace,
    deque: DequeId,
    worker: u32,
    found: Option<Stop>,
) -> Result<(), YieldRefused>
    requires here { IsSeatOf row.now seat.old }
    requires slot { deque.0 + 2 < slot_count row.now }
    requires may { MayYield seat.old deque }
    requires nobody { seat.old.hand.note.enters ≡ None }
    requires worker { seat.old.hand.note.worker ≡ worker }
    requires found { seat.old.hand.note.found ≡ found }
    ensures seat { LeavesWith seat.old deque result seat.new }
    ensures unfinished { OnOk result ((finish : AnyFinish) → seat.old.hand.note.answered ≢ Some (Finished finish)) }
    ensures lone { HasAllPlaces (key_of row.now) seat.old → IsNotBusy result }
{
    let (lane, list) = match take_both(row, seat, deque) {
        Ok(taken) => taken,
        Err(held) => return Err(YieldRefused::Busy(held)),
    };
    match leave_with(row, seat, deque, list, lane, worker, found) {
        Ok(()) => Ok(()),
        Err(_) => Err(YieldRefused::OutOfMemory),
    }
}

/// Gives the deque of a seat up where an end is kept, which the seat is answered. The seat has found this stop or none. No statement of its threads
/// runs.
///
/// # Errors
///
/// Another seat holds the lane or the list (never, if this one has all places), no end is kept, or there is not enough memory to close the period,
/// which the seat notes as its stop if it had found none. The moment of the hall is what it was, and the seat holds nothing.
pub fn close_deque(
    row: &HallRow,
    seat: &mut HallPlace,
    deque: DequeId,
    found: Option<Stop>,
) -> Result<RunEnd, LastRefused>
    requires here { IsSeatOf row.now seat.old }
    requires slot { deque.0 + 2 < slot_count row.now }
    requires may { MayYield seat.old deque }
    requires found { seat.old.hand.note.found ≡ found }
    ensures seat { ClosesWith seat.old deque result seat.new }
    ensures unfinished { OnOk result ((finish : AnyFinish) → seat.old.hand.note.answered ≢ Some (Finished finish)) }
    ensures told { (end : AnyEnd) → seat.old.hand.note.answered ≡ Some end → MatchResult result (λ kept. kept ≡ end) MayBeOver }
    ensures lone { HasAllPlaces (key_of row.now) seat.old → IsNotHeld result }
{
    let (lane, list) = match take_both(row, seat, deque) {
        Ok(taken) => taken,
        Err(held) => return Err(LastRefused::Busy(held)),
    };
    let Some(end) = end_of(&list) else {
        put_list_and_lane(row, seat, deque, list, lane, Noting::Same);
        return Err(LastRefused::NotOver);
    };
    let noting = Noting::Closes { deque, end };
    match give_up_with(row, seat, deque, list, lane, noting, noting_of(found)) {
        Ok(()) => Ok(end),
        Err(_) => Err(LastRefused::OutOfMemory),
    }
}
