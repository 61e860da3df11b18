//! How a stop is kept.

ghost use Rattle.turn_table.specs.Tables.{key_of, IsSeatOf};
ghost use Rattle.hall_slots.specs.declared.seat_note.SeatNote.{SeatNote as AnyNote};
ghost use Rattle.hall_slots.specs.Takes.{MeetsLaw};
ghost use Rattle.hall_slots.specs.Stopping.{found_note, HasStopped, HoldsTheStopped, MayStop};

use crate::halting::keep_in;
use crate::{HallPlace, HallRow, ListSlot, Slot};
use containers::Boxed;
use play_rules::Stop;
use std::marker::Brand;

/// Puts the list back, in which the stop is kept that the seat has found.
fn write_stopped(row: &HallRow, seat: &mut HallPlace, list: Boxed<ListSlot>, _stop: Stop)
    ghost note: { AnyNote }
    requires here { IsSeatOf row.now seat.old }
    requires may { HoldsTheStopped (key_of row.now) seat.old list note }
    ensures seat { HasStopped seat.old note seat.new }
    ensures meets { MeetsLaw (key_of row.now) seat.new }
{
    row.put_back::<Brand>(seat, 0, Slot::List(list));
}

/// Keeps the stop that the seat has found in the list, where no end is kept, and puts the list back. It holds its other slots still.
pub fn put_stopped(row: &HallRow, seat: &mut HallPlace, list: Boxed<ListSlot>, stop: Stop)
    requires here { IsSeatOf row.now seat.old }
    requires may { MayStop (key_of row.now) seat.old list stop }
    ensures seat { HasStopped seat.old (found_note seat.old.hand.note stop) seat.new }
    ensures meets { MeetsLaw (key_of row.now) seat.new }
{
    let mut list = list;
    keep_in(&mut list, stop);
    write_stopped(row, seat, list, stop);
}
