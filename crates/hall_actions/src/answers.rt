//! How an owner is answered the end that is kept in the list.

ghost use Rattle.std.specs.Prelude.{◌+◌, ◌<◌, []};
ghost use Rattle.turn_table.specs.Tables.{key_of, slot_count, IsSeatOf};
ghost use Rattle.hall_parts.specs.Puts.{HasPut};
ghost use Rattle.hall_slots.specs.Lists.{answered_note};
ghost use Rattle.hall_actions.specs.Answers.{GivesAnswered, HoldsAnEnd, ReturnsEnded};

use containers::Boxed;
use deque_list::DequeId;
use hall_parts::give_still_back;
use hall_slots::{HallPlace, HallRow, LaneSlot, ListSlot, Slot};
use std::marker::Brand;

/// Puts the list back in which an end is kept, which the seat is answered.
fn answer(row: &HallRow, seat: &mut HallPlace, list: Boxed<ListSlot>)
    requires here { IsSeatOf row.now seat.old }
    requires holds { HoldsAnEnd seat.old list }
    ensures { GivesAnswered seat.old list seat.new }
{
    row.put_back::<Brand>(seat, 0, Slot::List(list));
}

/// Puts the list back in which an end is kept, which the seat is answered, and then the lane of the seat's deque, which shows what it showed.
pub fn return_answered(
    row: &HallRow,
    seat: &mut HallPlace,
    deque: DequeId,
    list: Boxed<ListSlot>,
    lane: LaneSlot,
)
    requires here { IsSeatOf row.now seat.old }
    requires slot { deque.0 + 2 < slot_count row.now }
    requires ended { ReturnsEnded (key_of row.now) seat.old deque list lane }
    ensures { HasPut seat.old (answered_note seat.old.hand.note list) [] seat.new }
{
    answer(row, seat, list);
    give_still_back(row, seat, deque, lane);
}
