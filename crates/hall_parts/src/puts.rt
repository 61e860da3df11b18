//! How the parts are put back.

ghost use Rattle.std.specs.Prelude.{◌≡◌, ◌+◌, ◌<◌, [], Some, ◌∷◌};
ghost use Rattle.hall_parts.specs.HallNames.{LaneSlot as AnyLane, ListSlot as AnyList, key_of, slot_count, IsSeatOf, SeatNote as AnyNote};
ghost use Rattle.hall_slots.specs.declared.slot.Slot.TheVariants as slots;
ghost use Rattle.hall_parts.specs.Puts.{note_of, MayPutLane, HasPut, MayPutPoolAndLane, MayPutListAndLane, MayPutAll};
ghost use Rattle.hall_parts.specs.Own.{IsStillThere, IsShortThere};
ghost use Rattle.play_rules.specs.declared.stop.Stop.TheVariants.{OutOfMemory as NoMemory};

use crate::noting::Noting;
use containers::Boxed;
use deque_list::DequeId;
use hall_slots::{
    HallPlace, HallRow, LaneSlot, ListSlot, PoolSlot, Slot, give_lane_back, give_list_back,
};
use play_rules::Stop;
use std::marker::Brand;

/// The lane in a slot that is one.
pub(crate) fn lane_of(slot: Slot) -> LaneSlot
    requires { (part : AnyLane) × (slot ≡ slots.Lane part) }
    ensures { slot ≡ slots.Lane result }
{
    match slot {
        Slot::Lane(lane) => lane,
        Slot::List(_list) => unreachable!(),
        Slot::Pool(_pool) => unreachable!(),
    }
}

/// The list in a slot that is it.
pub(crate) fn list_of(slot: Slot) -> Boxed<ListSlot>
    requires { (part : AnyList) × (slot ≡ slots.List part) }
    ensures { slot ≡ slots.List result }
{
    match slot {
        Slot::List(list) => list,
        Slot::Pool(_pool) => unreachable!(),
        Slot::Lane(_lane) => unreachable!(),
    }
}

/// Puts the lane back, and notes this.
fn write_lane(row: &HallRow, seat: &mut HallPlace, deque: DequeId, lane: LaneSlot, _noting: Noting)
    ghost note: { AnyNote }
    requires here { IsSeatOf row.now seat.old }
    requires slot { deque.0 + 2 < slot_count row.now }
    requires may { MayPutLane (key_of row.now) seat.old deque lane note }
    ensures { HasPut seat.old note [] seat.new }
{
    row.put_back::<Brand>(seat, deque.0 + 2, Slot::Lane(lane));
}

/// Puts the lane of the seat's deque back, where the seat holds nothing else. What the seat notes is decided there.
pub fn put_lane(row: &HallRow, seat: &mut HallPlace, deque: DequeId, lane: LaneSlot, noting: Noting)
    requires here { IsSeatOf row.now seat.old }
    requires slot { deque.0 + 2 < slot_count row.now }
    requires may { MayPutLane (key_of row.now) seat.old deque lane (note_of seat.old.hand.note noting) }
    ensures { HasPut seat.old (note_of seat.old.hand.note noting) [] seat.new }
{
    write_lane(row, seat, deque, lane, noting);
}

/// Gives a lane back whose top thread has done no action, but perhaps plain statements. Nothing is decided.
pub fn give_still_back(row: &HallRow, seat: &mut HallPlace, deque: DequeId, lane: LaneSlot)
    requires here { IsSeatOf row.now seat.old }
    requires slot { deque.0 + 2 < slot_count row.now }
    requires still { IsStillThere (key_of row.now) seat.old deque lane }
    ensures { HasPut seat.old seat.old.hand.note [] seat.new }
{
    put_lane(row, seat, deque, lane, Noting::Same);
}

/// Gives such a lane back if memory was wanting, which is the stop that the seat has found.
pub fn give_short_back(row: &HallRow, seat: &mut HallPlace, deque: DequeId, lane: LaneSlot)
    requires here { IsSeatOf row.now seat.old }
    requires slot { deque.0 + 2 < slot_count row.now }
    requires short { IsShortThere (key_of row.now) seat.old deque lane }
    ensures { HasPut seat.old (record seat.old.hand.note { found = Some NoMemory }) [] seat.new }
{
    put_lane(row, seat, deque, lane, Noting::Found(Stop::OutOfMemory));
}

/// Puts the pool back, and notes this; from this step on the lane shows what it is to be.
fn write_pool(
    row: &HallRow,
    seat: &mut HallPlace,
    deque: DequeId,
    pool: PoolSlot,
    lane: &Slot,
    _noting: Noting,
)
    ghost note: { AnyNote }
    requires here { IsSeatOf row.now seat.old }
    requires slot { deque.0 + 2 < slot_count row.now }
    requires may { (part : AnyLane) × (lane.now ≡ slots.Lane part) × MayPutPoolAndLane (key_of row.now) seat.old deque pool part note }
    ensures { (part : AnyLane) → lane.now ≡ slots.Lane part → HasPut seat.old note ((deque.0 + 2, slots.Lane part) ∷ []) seat.new }
{
    row.put_back_showing::<Brand>(seat, 1, Slot::Pool(pool), &[(deque.0 + 2, lane)]);
}

/// Puts the pool and the lane of the seat's deque back, where the seat holds nothing else. What the seat notes is decided at the put back of
/// the pool.
pub fn put_pool_and_lane(
    row: &HallRow,
    seat: &mut HallPlace,
    deque: DequeId,
    pool: PoolSlot,
    lane: LaneSlot,
    noting: Noting,
)
    requires here { IsSeatOf row.now seat.old }
    requires slot { deque.0 + 2 < slot_count row.now }
    requires may { MayPutPoolAndLane (key_of row.now) seat.old deque pool lane (note_of seat.old.hand.note noting) }
    ensures { HasPut seat.old (note_of seat.old.hand.note noting) [] seat.new }
{
    let shown = Slot::Lane(lane);
    write_pool(row, seat, deque, pool, &shown, noting);
    give_lane_back(row, seat, deque, lane_of(shown));
}

/// Puts the list back, and notes this; from this step on the lane shows what it is to be.
fn write_list(
    row: &HallRow,
    seat: &mut HallPlace,
    deque: DequeId,
    list: Boxed<ListSlot>,
    lane: &Slot,
    _noting: Noting,
)
    ghost note: { AnyNote }
    requires here { IsSeatOf row.now seat.old }
    requires slot { deque.0 + 2 < slot_count row.now }
    requires may { (part : AnyLane) × (lane.now ≡ slots.Lane part) × MayPutListAndLane (key_of row.now) seat.old deque list part note }
    ensures { (part : AnyLane) → lane.now ≡ slots.Lane part → HasPut seat.old note ((deque.0 + 2, slots.Lane part) ∷ []) seat.new }
{
    row.put_back_showing::<Brand>(seat, 0, Slot::List(list), &[(deque.0 + 2, lane)]);
}

/// Puts the list and the lane of the seat's deque back, where the seat holds nothing else. What the seat notes is decided at the put back of
/// the list.
pub fn put_list_and_lane(
    row: &HallRow,
    seat: &mut HallPlace,
    deque: DequeId,
    list: Boxed<ListSlot>,
    lane: LaneSlot,
    noting: Noting,
)
    requires here { IsSeatOf row.now seat.old }
    requires slot { deque.0 + 2 < slot_count row.now }
    requires may { MayPutListAndLane (key_of row.now) seat.old deque list lane (note_of seat.old.hand.note noting) }
    ensures { HasPut seat.old (note_of seat.old.hand.note noting) [] seat.new }
{
    let shown = Slot::Lane(lane);
    write_list(row, seat, deque, list, &shown, noting);
    give_lane_back(row, seat, deque, lane_of(shown));
}

/// Puts the pool back, and notes this; from this step on the list and the lane show what they are to be.
fn write_all(
    row: &HallRow,
    seat: &mut HallPlace,
    deque: DequeId,
    pool: PoolSlot,
    list: &Slot,
    lane: &Slot,
    _noting: Noting,
)
    ghost note: { AnyNote }
    requires here { IsSeatOf row.now seat.old }
    requires slot { deque.0 + 2 < slot_count row.now }
    requires may { (first : AnyList) × (part : AnyLane) × (list.now ≡ slots.List first) × (lane.now ≡ slots.Lane part)
        × MayPutAll (key_of row.now) seat.old deque first pool part note }
    ensures { (first : AnyList) (part : AnyLane) → list.now ≡ slots.List first → lane.now ≡ slots.Lane part
        → HasPut seat.old note ((0, slots.List first) ∷ (deque.0 + 2, slots.Lane part) ∷ []) seat.new }
{
    row.put_back_showing::<Brand>(seat, 1, Slot::Pool(pool), &[(0, list), (deque.0 + 2, lane)]);
}

/// Puts the pool, the list and the lane of the seat's deque back, which are all that the seat holds. What the seat notes is decided at the put
/// back of the pool.
pub fn put_all(
    row: &HallRow,
    seat: &mut HallPlace,
    deque: DequeId,
    list: Boxed<ListSlot>,
    pool: PoolSlot,
    lane: LaneSlot,
    noting: Noting,
)
    requires here { IsSeatOf row.now seat.old }
    requires slot { deque.0 + 2 < slot_count row.now }
    requires may { MayPutAll (key_of row.now) seat.old deque list pool lane (note_of seat.old.hand.note noting) }
    ensures { HasPut seat.old (note_of seat.old.hand.note noting) [] seat.new }
{
    let first = Slot::List(list);
    let shown = Slot::Lane(lane);
    write_all(row, seat, deque, pool, &first, &shown, noting);
    give_list_back(row, seat, list_of(first));
    give_lane_back(row, seat, deque, lane_of(shown));
}
