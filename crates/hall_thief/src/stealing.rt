//! How a thief steals.

ghost use Rattle.std.specs.Prelude.{◌≡◌, ◌≢◌, ℕ, ◌<◌, ◌≤◌, [], ◌∷◌, Some, Err, length, slice_get};
ghost use Rattle.deque_list.specs.declared.place.Place.{Place as AnyPlace};
ghost use Rattle.deque_list.specs.Ids.{IsSmallestFree, place_ids};
ghost use Rattle.hall_thief.specs.HallNames.{key_of, IsSeatOf, HallSeat, HasAllPlaces, IsTaken, MeetsLaw};
ghost use Rattle.hall_slots.specs.declared.slot.Slot.TheVariants as slots;
ghost use Rattle.hall_thief.specs.declared.refused.StealRefused.TheVariants.{Stopped};
ghost use Rattle.hall_thief.specs.Prey.{EndsWith, HasBoth, HasPrey, IsNotBusy, IsOneTooMany, IsStealing, MaySteal, StealsWith};
ghost use Rattle.hall_thief.specs.Steals.{Steals};

use crate::choosing::seek;
use crate::parts::{deque_at, most_deques, next_beside, next_deque, next_period};
use crate::prey::{Prey, Thief};
use crate::puts::give_same_lane_back;
use crate::refused::{StealRefused, refusal_of};
use crate::thefts::{take_bottom, take_over};
use containers::Boxed;
use deque_list::{DequeId, Place};
use hall_slots::{
    Event, HallPlace, HallRow, LaneSlot, ListSlot, give_lane_back, give_list_back, put_stopped,
    take_lane,
};
use play_rules::Stop;
use std::alloc::Global;

/// Takes the deque over that the thief has chosen, which nobody owns and which has one thread. Fails if there is not enough memory.
fn steal_whole(
    row: &HallRow,
    seat: &mut HallPlace,
    thief: Thief,
    prey: Prey,
    victim: Place,
) -> Result<Event, StealRefused>
    requires here { IsSeatOf row.now seat.old }
    requires stealing { IsStealing (key_of row.now) seat.old thief.worker prey victim }
    requires one { length prey.lane.lane.items < 2 }
    ensures seat { StealsWith prey.list victim prey.lane seat.old seat.new result }
    ensures lone { IsNotBusy result }
{
    let Prey { list, place, lane } = prey;
    match next_period(&list, thief.alloc, 0 < place) {
        Ok(period) => {
            let number = period.number;
            take_over(row, seat, list, victim.id, lane, thief.worker, period);
            Ok(Event::Stole {
                deque: victim.id,
                period: number,
            })
        }
        Err(_) => {
            put_stopped(row, seat, list, Stop::OutOfMemory);
            give_lane_back(row, seat, victim.id, lane);
            Err(StealRefused::Stopped(Stop::OutOfMemory))
        }
    }
}

/// Takes the bottom thread of the deque that the thief has chosen into a free one, whose lane it holds too. Fails if there is not enough memory.
fn steal_into(
    row: &HallRow,
    seat: &mut HallPlace,
    thief: Thief,
    prey: Prey,
    victim: Place,
    id: DequeId,
    new: LaneSlot,
) -> Result<Event, StealRefused>
    requires here { IsSeatOf row.now seat.old }
    requires may { MaySteal seat.old thief.worker }
    requires both { HasBoth (key_of row.now) prey.list prey.place prey.lane id new seat.old }
    requires meets { MeetsLaw (key_of row.now) seat.old }
    requires victim { slice_get prey.list.part.order.places prey.place ≡ Some victim }
    requires two { 2 ≤ length prey.lane.lane.items }
    requires next { IsSmallestFree (place_ids prey.list.part.order.places) id }
    requires few { length prey.list.part.order.places ≢ prey.list.part.order.most }
    ensures seat { EndsWith prey.list id seat.old seat.new result }
{
    let Prey { list, lane, .. } = prey;
    let mut new = new;
    match next_beside(&list, &mut new, thief.alloc) {
        Ok(period) => {
            let number = period.number;
            take_bottom(
                row,
                seat,
                list,
                victim.id,
                lane,
                id,
                new,
                thief.worker,
                period,
            );
            Ok(Event::Stole {
                deque: id,
                period: number,
            })
        }
        Err(_) => {
            put_stopped(row, seat, list, Stop::OutOfMemory);
            give_same_lane_back(row, seat, id, new);
            give_lane_back(row, seat, victim.id, lane);
            Err(StealRefused::Stopped(Stop::OutOfMemory))
        }
    }
}

/// Takes the bottom thread of the deque that the thief has chosen into the next free one. Fails if another seat holds the lane of this one,
/// and then all is put back; or if there is not enough memory.
fn steal_bottom(
    row: &HallRow,
    seat: &mut HallPlace,
    thief: Thief,
    prey: Prey,
    victim: Place,
    id: DequeId,
) -> Result<Event, StealRefused>
    requires here { IsSeatOf row.now seat.old }
    requires stealing { IsStealing (key_of row.now) seat.old thief.worker prey victim }
    requires two { 2 ≤ length prey.lane.lane.items }
    requires next { IsSmallestFree (place_ids prey.list.part.order.places) id }
    requires below { id.0 < prey.list.part.order.most }
    requires few { length prey.list.part.order.places ≢ prey.list.part.order.most }
    ensures seat { StealsWith prey.list victim prey.lane seat.old seat.new result }
    ensures lone { HasAllPlaces (key_of row.now) seat.old → IsNotBusy result }
{
    match take_lane(row, seat, id) {
        Ok(new) => steal_into(row, seat, thief, prey, victim, id, new),
        Err(held) => {
            give_lane_back(row, seat, victim.id, prey.lane);
            give_list_back(row, seat, prey.list);
            Err(StealRefused::Busy(held))
        }
    }
}

/// Keeps the stop that one deque more would be too many.
fn stop_at_full(row: &HallRow, seat: &mut HallPlace, prey: Prey, victim: Place) -> Stop
    requires here { IsSeatOf row.now seat.old }
    requires stealing { (worker : ℕ) × IsStealing (key_of row.now) seat.old worker prey victim }
    requires full { IsOneTooMany prey.list prey.lane }
    ensures { StealsWith prey.list victim prey.lane seat.old seat.new (Err (Stopped result)) }
{
    let stop = Stop::DequesFull {
        deques: most_deques(&prey.list),
    };
    put_stopped(row, seat, prey.list, stop);
    give_lane_back(row, seat, victim.id, prey.lane);
    stop
}

/// Steals from the deque that the thief has chosen. Fails if another seat holds the lane of the new deque, and then all is put back; or if
/// no further deque is allowed, or there is not enough memory.
fn steal_from(
    row: &HallRow,
    seat: &mut HallPlace,
    thief: Thief,
    prey: Prey,
    victim: Place,
) -> Result<Event, StealRefused>
    requires here { IsSeatOf row.now seat.old }
    requires stealing { IsStealing (key_of row.now) seat.old thief.worker prey victim }
    ensures seat { StealsWith prey.list victim prey.lane seat.old seat.new result }
    ensures lone { HasAllPlaces (key_of row.now) seat.old → IsNotBusy result }
{
    if prey.lane.lane.len() < 2 {
        return steal_whole(row, seat, thief, prey, victim);
    }
    match next_deque(&prey.list) {
        Some(id) => steal_bottom(row, seat, thief, prey, victim, id),
        None => Err(StealRefused::Stopped(stop_at_full(row, seat, prey, victim))),
    }
}

/// What `steal` does once it has chosen a deque.
fn steal_prey(
    row: &HallRow,
    seat: &mut HallPlace,
    thief: Thief,
    prey: Prey,
) -> Result<Event, StealRefused>
    requires here { IsSeatOf row.now seat.old }
    requires may { MaySteal seat.old thief.worker }
    requires prey { HasPrey (key_of row.now) prey.list prey.place prey.lane seat.old }
    requires meets { MeetsLaw (key_of row.now) seat.old }
    ensures seat { (victim : AnyPlace) → slice_get prey.list.part.order.places prey.place ≡ Some victim
        → StealsWith prey.list victim prey.lane seat.old seat.new result }
    ensures lone { HasAllPlaces (key_of row.now) seat.old → IsNotBusy result }
{
    match deque_at(&prey.list, prey.place) {
        Some(victim) => steal_from(row, seat, thief, prey, victim),
        None => unreachable!(),
    }
}

/// Steals, with the list that the seat holds alone, from the first deque in reach that has a thread to steal, in the order that a word picks: takes
/// it over if nobody owns it and it has one thread, and otherwise takes its bottom thread into a new deque to the right of it. The seat holds
/// nothing then.
///
/// # Errors
///
/// Another seat holds a lane that the thief needs: then all is put back, and the seat is what it was before it took the list but for its answers.
/// Or no deque in reach has a thread to steal, or an end is kept. Or no further deque is allowed, or there is not enough memory: this stop is kept
/// in the list.
pub fn steal(
    row: &HallRow,
    seat: &mut HallPlace,
    alloc: Global,
    worker: u32,
    list: Boxed<ListSlot>,
    workers: u32,
    word: u64,
) -> Result<Event, StealRefused>
    requires here { IsSeatOf row.now seat.old }
    requires may { MaySteal seat.old worker }
    requires reach { workers ≡ (key_of row.now).workers }
    requires holds { seat.old.hand.holds ≡ (0, slots.List list) ∷ [] }
    requires meets { MeetsLaw (key_of row.now) seat.old }
    ensures seat { (before : HallSeat) → before.hand.holds ≡ [] → IsTaken before 0 (slots.List list) seat.old
        → Steals workers word before seat.new result }
    ensures lone { HasAllPlaces (key_of row.now) seat.old → IsNotBusy result }
{
    match seek(row, seat, list, workers, word) {
        Ok(prey) => steal_prey(row, seat, Thief { worker, alloc }, prey),
        Err(refused) => Err(refusal_of(refused)),
    }
}
