//! How a seat takes one slot.

ghost use Rattle.std.specs.Prelude.{◌≡◌, ◌+◌, ◌<◌, IfOk, IsOk, MatchResult};
ghost use Rattle.turn_table.specs.Hands.{Has, took, refused};
ghost use Rattle.turn_table.specs.Seats.{with_hand};
ghost use Rattle.turn_table.specs.Tables.{key_of, slot_count, IsSeatOf};
ghost use Rattle.turn_table.specs.Backs.{kept};
ghost use Rattle.hall_slots.specs.declared.slot.Slot.TheVariants as slots;
ghost use Rattle.hall_slots.specs.Law.{IsShaped};
ghost use Rattle.hall_slots.specs.Takes.{IsPlaced, HasAllPlaces, MeetsLaw, IsTaken, IsRefused};

use crate::rule::{HallPlace, HallRow};
use crate::{LaneSlot, ListSlot, PoolSlot, Slot};
use containers::Boxed;
use deque_list::DequeId;
use turn_table::{Held, Keep};

/// Takes the turn of a slot, and what is in it.
///
/// # Errors
///
/// Another seat holds the turn.
fn take_slot(row: &HallRow, seat: &mut HallPlace, slot: u32) -> Result<Slot, Held>
    requires here { IsSeatOf row.now seat.old }
    requires placed { IsPlaced seat.old }
    requires slot { (slot < slot_count row.now) × ¬ (Has slot seat.old.hand.holds) }
    ensures seat { MatchResult result (λ found. IsTaken seat.old slot found seat.new) (λ held. IsRefused seat.old slot held seat.new) }
    ensures shape { IfOk result (λ found. IsShaped slot found) }
    ensures meets { IfOk result (λ _. MeetsLaw (key_of row.now) seat.new) }
    ensures lone { HasAllPlaces (key_of row.now) seat.old → IsOk result }
{
    row.take::<Keep>(seat, slot)
}

/// Takes the list.
///
/// # Errors
///
/// Another seat holds it.
pub fn take_list(row: &HallRow, seat: &mut HallPlace) -> Result<Boxed<ListSlot>, Held>
    requires here { IsSeatOf row.now seat.old }
    requires placed { IsPlaced seat.old }
    requires free { ¬ (Has 0 seat.old.hand.holds) }
    ensures seat { MatchResult result (λ list. IsTaken seat.old 0 (slots.List list) seat.new) (λ held. IsRefused seat.old 0 held seat.new) }
    ensures meets { IfOk result (λ _. MeetsLaw (key_of row.now) seat.new) }
    ensures lone { HasAllPlaces (key_of row.now) seat.old → IsOk result }
{
    match take_slot(row, seat, 0)? {
        Slot::List(list) => Ok(list),
        Slot::Pool(_) | Slot::Lane(_) => unreachable!(),
    }
}

/// Takes the pool.
///
/// # Errors
///
/// Another seat holds it.
pub fn take_pool(row: &HallRow, seat: &mut HallPlace) -> Result<PoolSlot, Held>
    requires here { IsSeatOf row.now seat.old }
    requires placed { IsPlaced seat.old }
    requires slot { (1 < slot_count row.now) × ¬ (Has 1 seat.old.hand.holds) }
    ensures seat { MatchResult result (λ pool. IsTaken seat.old 1 (slots.Pool pool) seat.new) (λ held. IsRefused seat.old 1 held seat.new) }
    ensures meets { IfOk result (λ _. MeetsLaw (key_of row.now) seat.new) }
    ensures lone { HasAllPlaces (key_of row.now) seat.old → IsOk result }
{
    match take_slot(row, seat, 1)? {
        Slot::Pool(pool) => Ok(pool),
        Slot::List(_) | Slot::Lane(_) => unreachable!(),
    }
}

/// Takes the lane of a deque.
///
/// # Errors
///
/// Another seat holds it.
pub fn take_lane(row: &HallRow, seat: &mut HallPlace, deque: DequeId) -> Result<LaneSlot, Held>
    requires here { IsSeatOf row.now seat.old }
    requires placed { IsPlaced seat.old }
    requires slot { (deque.0 + 2 < slot_count row.now) × ¬ (Has (deque.0 + 2) seat.old.hand.holds) }
    ensures seat { MatchResult result (λ lane. IsTaken seat.old (deque.0 + 2) (slots.Lane lane) seat.new)
        (λ held. IsRefused seat.old (deque.0 + 2) held seat.new) }
    ensures meets { IfOk result (λ _. MeetsLaw (key_of row.now) seat.new) }
    ensures lone { HasAllPlaces (key_of row.now) seat.old → IsOk result }
{
    match take_slot(row, seat, deque.0 + 2)? {
        Slot::Lane(lane) => Ok(lane),
        Slot::List(_) | Slot::Pool(_) => unreachable!(),
    }
}
