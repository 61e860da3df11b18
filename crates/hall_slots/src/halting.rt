//! How a seat keeps the stop that it found.

ghost use Rattle.std.specs.Prelude.{◌≡◌, [], Some, IfOk, IsOk, MatchResult};
ghost use Rattle.turn_table.specs.Tables.{key_of, IsSeatOf};
ghost use Rattle.hall_slots.specs.ListCalls.{end_kept};
ghost use Rattle.hall_slots.specs.Takes.{HasAllPlaces, IsRefused, MeetsLaw};
ghost use Rattle.hall_slots.specs.Halting.{HasHalted, HoldsTheKept, IsInHall, PutsHalted};

use crate::{HallPlace, HallRow, ListSlot, Slot, take_list};
use containers::Boxed;
use play_rules::{RunEnd, Stop};
use std::marker::Brand;
use turn_table::Held;

/// Keeps a stop in the list, unless an end is kept already. Returns the end that is kept then.
pub fn keep_in(list: &mut Boxed<ListSlot>, stop: Stop) -> RunEnd
    ensures kept { result ≡ end_kept list.old.end stop }
    ensures list { list.new ≡ record list.old { end = Some result } }
{
    list.get_mut().keep(stop)
}

/// Puts the list back, in which the stop that the seat found is kept, or an end before it. The seat is answered this end.
fn put_halted(row: &HallRow, seat: &mut HallPlace, list: Boxed<ListSlot>)
    requires here { IsSeatOf row.now seat.old }
    requires is_in { IsInHall seat.old }
    requires holds { HoldsTheKept seat.old list }
    ensures seat { PutsHalted seat.old list seat.new }
    ensures meets { MeetsLaw (key_of row.now) seat.new }
{
    row.put_back::<Brand>(seat, 0, Slot::List(list));
}

/// Keeps the stop that the seat found in the list, unless an end is kept already. Returns the end that is kept then.
///
/// # Errors
///
/// Another seat holds the list.
pub fn halt(row: &HallRow, seat: &mut HallPlace, stop: Stop) -> Result<RunEnd, Held>
    requires here { IsSeatOf row.now seat.old }
    requires is_in { IsInHall seat.old }
    requires found { seat.old.hand.note.found ≡ Some stop }
    requires free { seat.old.hand.holds ≡ [] }
    ensures seat { MatchResult result (λ end. HasHalted seat.old stop end seat.new) (λ held. IsRefused seat.old 0 held seat.new) }
    ensures meets { IfOk result (λ _. MeetsLaw (key_of row.now) seat.new) }
    ensures lone { HasAllPlaces (key_of row.now) seat.old → IsOk result }
{
    let mut list = take_list(row, seat)?;
    let end = keep_in(&mut list, stop);
    put_halted(row, seat, list);
    Ok(end)
}
