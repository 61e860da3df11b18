//! How a list that names a worker more is put back, and how a seat is split.

ghost use Rattle.std.specs.Prelude.{◌≡◌};
ghost use Rattle.turn_table.specs.Hands.{fresh};
ghost use Rattle.turn_table.specs.Tables.{key_of, IsSeatOf};
ghost use Rattle.hall_slots.specs.Entering.{GivesAPlace, HoldsTheNamed, PutsGiven, PutsNamed, worker_note};

use crate::{HallPlace, HallRow, ListSlot, Slot};
use containers::Boxed;
use std::marker::Brand;

/// Puts back the list that names a worker who has no seat yet, and enters by this one.
pub(crate) fn put_named(row: &HallRow, seat: &mut HallPlace, list: Boxed<ListSlot>)
    requires here { IsSeatOf row.now seat.old }
    requires holds { HoldsTheNamed (key_of row.now) seat.old list }
    ensures { PutsNamed seat.old list seat.new }
{
    row.put_back::<Brand>(seat, 0, Slot::List(list));
}

/// Gives a place to a new seat, which is that of the worker who enters.
pub(crate) fn split(row: &HallRow, seat: &mut HallPlace) -> HallPlace
    requires here { IsSeatOf row.now seat.old }
    requires gives { GivesAPlace seat.old }
    ensures seat { PutsGiven seat.old seat.new }
    ensures here { IsSeatOf row.now result }
    ensures made { result.hand ≡ fresh (worker_note seat.old.hand.note.enters) }
{
    row.split_seat::<Brand>(seat)
}
