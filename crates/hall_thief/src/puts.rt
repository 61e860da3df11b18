//! The put backs: of a lane in which room was made, and those that decide a theft.

ghost use Rattle.std.specs.Prelude.{◌+◌, ◌<◌, ◌≡◌, ◌∷◌, []};
ghost use Rattle.hall_thief.specs.HallNames.{key_of, slot_count, IsSeatOf, IsGiven, IsPlaced, MeetsLaw, LaneSlot as AnyLane, SeatNote as AnyNote};
ghost use Rattle.hall_thief.specs.Lanes.{HoldsTheSameLane};
ghost use Rattle.hall_slots.specs.declared.slot.Slot.TheVariants as slots;
ghost use Rattle.hall_thief.specs.Thefts.{HasStolen, HasTakenBottom, HasTakenOver, StealsInto, stolen_note};

use containers::Boxed;
use deque_list::DequeId;
use hall_slots::{HallPlace, HallRow, LaneSlot, ListSlot, Slot, give_lane_back};
use std::marker::Brand;
use turn_table::Keep;

/// Puts back a lane that shows what it showed.
pub fn give_same_lane_back(row: &HallRow, seat: &mut HallPlace, deque: DequeId, lane: LaneSlot)
    requires here { IsSeatOf row.now seat.old }
    requires placed { IsPlaced seat.old }
    requires slot { deque.0 + 2 < slot_count row.now }
    requires same { HoldsTheSameLane seat.old deque lane }
    ensures seat { IsGiven seat.old (deque.0 + 2) seat.new }
    ensures meets { MeetsLaw (key_of row.now) seat.new }
{
    row.put_back::<Keep>(seat, deque.0 + 2, Slot::Lane(lane));
}

/// The lane in a slot that is one.
fn lane_in(slot: Slot) -> LaneSlot
    requires { (lane : AnyLane) × (slot ≡ slots.Lane lane) }
    ensures { slot ≡ slots.Lane result }
{
    match slot {
        Slot::Lane(lane) => lane,
        Slot::List(_list) => unreachable!(),
        Slot::Pool(_pool) => unreachable!(),
    }
}

/// Puts the list back; from this step on the lane of the deque that is taken over shows what it is to be.
fn write_over(
    row: &HallRow,
    seat: &mut HallPlace,
    deque: DequeId,
    list: Boxed<ListSlot>,
    lane: &Slot,
)
    ghost note: { AnyNote }
    requires here { IsSeatOf row.now seat.old }
    requires slot { deque.0 + 2 < slot_count row.now }
    requires note { note ≡ stolen_note seat.old.hand.note deque list.part.begun }
    requires stolen { (part : AnyLane) × (lane.now ≡ slots.Lane part) × HasTakenOver (key_of row.now) seat.old list deque part }
    ensures { (part : AnyLane) → lane.now ≡ slots.Lane part → StealsInto seat.old deque list ((deque.0 + 2, slots.Lane part) ∷ []) seat.new }
{
    row.put_back_showing::<Brand>(seat, 0, Slot::List(list), &[(deque.0 + 2, lane)]);
}

/// Puts the list and the lane of a deque back that the seat has taken over.
pub fn put_over(
    row: &HallRow,
    seat: &mut HallPlace,
    deque: DequeId,
    list: Boxed<ListSlot>,
    lane: LaneSlot,
)
    requires here { IsSeatOf row.now seat.old }
    requires slot { deque.0 + 2 < slot_count row.now }
    requires stolen { HasTakenOver (key_of row.now) seat.old list deque lane }
    ensures seat { HasStolen seat.old deque list seat.new }
    ensures meets { MeetsLaw (key_of row.now) seat.new }
{
    let shown = Slot::Lane(lane);
    write_over(row, seat, deque, list, &shown);
    give_lane_back(row, seat, deque, lane_in(shown));
}

/// Puts the list back; from this step on the lanes of the victim and of the new deque show what they are to be.
fn write_beside(
    row: &HallRow,
    seat: &mut HallPlace,
    victim: DequeId,
    deque: DequeId,
    list: Boxed<ListSlot>,
    lane: &Slot,
    new: &Slot,
)
    ghost note: { AnyNote }
    requires here { IsSeatOf row.now seat.old }
    requires slot { (deque.0 + 2 < slot_count row.now) × (victim.0 + 2 < slot_count row.now) }
    requires note { note ≡ stolen_note seat.old.hand.note deque list.part.begun }
    requires stolen { (part : AnyLane) × (begun : AnyLane) × (lane.now ≡ slots.Lane part) × (new.now ≡ slots.Lane begun)
        × HasTakenBottom (key_of row.now) seat.old list victim part deque begun }
    ensures { (part : AnyLane) (begun : AnyLane) → lane.now ≡ slots.Lane part → new.now ≡ slots.Lane begun
        → StealsInto seat.old deque list ((deque.0 + 2, slots.Lane begun) ∷ (victim.0 + 2, slots.Lane part) ∷ []) seat.new }
{
    row.put_back_showing::<Brand>(
        seat,
        0,
        Slot::List(list),
        &[(victim.0 + 2, lane), (deque.0 + 2, new)],
    );
}

/// Puts the list, the lane of the victim and that of the new deque back, into which the seat has taken the bottom thread of its victim.
pub fn put_beside(
    row: &HallRow,
    seat: &mut HallPlace,
    victim: DequeId,
    deque: DequeId,
    list: Boxed<ListSlot>,
    lane: LaneSlot,
    new: LaneSlot,
)
    requires here { IsSeatOf row.now seat.old }
    requires slot { deque.0 + 2 < slot_count row.now }
    requires victim { victim.0 + 2 < slot_count row.now }
    requires stolen { HasTakenBottom (key_of row.now) seat.old list victim lane deque new }
    ensures seat { HasStolen seat.old deque list seat.new }
    ensures meets { MeetsLaw (key_of row.now) seat.new }
{
    let robbed = Slot::Lane(lane);
    let begun = Slot::Lane(new);
    write_beside(row, seat, victim, deque, list, &robbed, &begun);
    give_lane_back(row, seat, victim, lane_in(robbed));
    give_lane_back(row, seat, deque, lane_in(begun));
}
