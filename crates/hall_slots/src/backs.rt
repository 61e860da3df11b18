//! How a seat puts back what it took, unchanged.

ghost use Rattle.std.specs.Prelude.{◌≡◌, ◌+◌, ◌<◌};
ghost use Rattle.turn_table.specs.Notes.{HasAs};
ghost use Rattle.turn_table.specs.Tables.{key_of, slot_count, IsSeatOf};
ghost use Rattle.hall_slots.specs.declared.slot.Slot.TheVariants as slots;
ghost use Rattle.hall_slots.specs.Takes.{IsPlaced, IsGiven, MeetsLaw};

use crate::rule::{HallPlace, HallRow};
use crate::{LaneSlot, ListSlot, Slot};
use containers::Boxed;
use deque_list::DequeId;
use turn_table::Keep;

/// Puts back what is in a slot as it was.
fn give_slot_back(row: &HallRow, seat: &mut HallPlace, slot: u32, found: Slot)
    requires here { IsSeatOf row.now seat.old }
    requires placed { IsPlaced seat.old }
    requires held { HasAs slot found seat.old.hand.holds }
    ensures seat { IsGiven seat.old slot seat.new }
    ensures meets { MeetsLaw (key_of row.now) seat.new }
{
    row.put_back::<Keep>(seat, slot, found);
}

/// Puts the list back as it was.
pub fn give_list_back(row: &HallRow, seat: &mut HallPlace, list: Boxed<ListSlot>)
    requires here { IsSeatOf row.now seat.old }
    requires placed { IsPlaced seat.old }
    requires held { HasAs 0 (slots.List list) seat.old.hand.holds }
    ensures seat { IsGiven seat.old 0 seat.new }
    ensures meets { MeetsLaw (key_of row.now) seat.new }
{
    give_slot_back(row, seat, 0, Slot::List(list));
}

/// Puts a lane back as it was.
pub fn give_lane_back(row: &HallRow, seat: &mut HallPlace, deque: DequeId, lane: LaneSlot)
    requires here { IsSeatOf row.now seat.old }
    requires placed { IsPlaced seat.old }
    requires slot { deque.0 + 2 < slot_count row.now }
    requires held { HasAs (deque.0 + 2) (slots.Lane lane) seat.old.hand.holds }
    ensures seat { IsGiven seat.old (deque.0 + 2) seat.new }
    ensures meets { MeetsLaw (key_of row.now) seat.new }
{
    give_slot_back(row, seat, deque.0 + 2, Slot::Lane(lane));
}
