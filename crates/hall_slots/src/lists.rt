//! How a seat puts the list back that it took.

ghost use Rattle.std.specs.Prelude.{◌≡◌};
ghost use Rattle.turn_table.specs.Tables.{key_of, IsSeatOf};
ghost use Rattle.hall_slots.specs.Takes.{IsPlaced, MeetsLaw};
ghost use Rattle.hall_slots.specs.Lists.{HoldsTheEnd, HoldsTheSame, PutsAnswered, PutsSame};

use crate::{HallPlace, HallRow, ListSlot, Slot};
use containers::Boxed;
use play_rules::RunEnd;
use std::marker::Brand;
use turn_table::Keep;

/// The end that is kept, if any.
pub fn end_of(list: &Boxed<ListSlot>) -> Option<RunEnd>
    ensures { result ≡ list.now.end }
{
    list.get().end
}

/// Puts back a list that shows what it showed.
pub fn put_same(row: &HallRow, seat: &mut HallPlace, list: Boxed<ListSlot>)
    requires here { IsSeatOf row.now seat.old }
    requires placed { IsPlaced seat.old }
    requires holds { HoldsTheSame seat.old list }
    ensures seat { PutsSame seat.old seat.new }
    ensures meets { MeetsLaw (key_of row.now) seat.new }
{
    row.put_back::<Keep>(seat, 0, Slot::List(list));
}

/// Puts back a list in which an end is kept, which the seat is answered.
pub fn put_answered(row: &HallRow, seat: &mut HallPlace, list: Boxed<ListSlot>)
    requires here { IsSeatOf row.now seat.old }
    requires placed { IsPlaced seat.old }
    requires holds { HoldsTheEnd seat.old list }
    ensures seat { PutsAnswered seat.old list seat.new }
    ensures meets { MeetsLaw (key_of row.now) seat.new }
{
    row.put_back::<Brand>(seat, 0, Slot::List(list));
}
