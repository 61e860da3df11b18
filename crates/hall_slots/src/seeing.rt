//! How a seat looks for the end of the run.

ghost use Rattle.std.specs.Prelude.{◌≡◌, [], Some, IfOk, IsOk, MatchResult};
ghost use Rattle.play_rules.specs.declared.ends.RunEnd.{RunEnd as AnyEnd};
ghost use Rattle.turn_table.specs.Tables.{key_of, IsSeatOf};
ghost use Rattle.hall_slots.specs.Takes.{HasAllPlaces, IsPlaced, IsRefused};
ghost use Rattle.hall_slots.specs.Closing.{HasSeen};

use crate::lists::{end_of, put_answered};
use crate::{HallPlace, HallRow, give_list_back, take_list};
use play_rules::RunEnd;
use turn_table::Held;

/// The end that is kept in the list, if any. The seat is answered this end. It is the one that it was answered before, if it was.
///
/// # Errors
///
/// Another seat holds the list.
pub fn see_end(row: &HallRow, seat: &mut HallPlace) -> Result<Option<RunEnd>, Held>
    requires here { IsSeatOf row.now seat.old }
    requires placed { IsPlaced seat.old }
    requires free { seat.old.hand.holds ≡ [] }
    ensures seat { MatchResult result (λ end. HasSeen seat.old end seat.new) (λ held. IsRefused seat.old 0 held seat.new) }
    ensures told { (end : AnyEnd) → seat.old.hand.note.answered ≡ Some end → IfOk result (λ found. found ≡ Some end) }
    ensures lone { HasAllPlaces (key_of row.now) seat.old → IsOk result }
{
    let list = take_list(row, seat)?;
    let end = end_of(&list);
    match end {
        Some(_) => put_answered(row, seat, list),
        None => give_list_back(row, seat, list),
    }
    Ok(end)
}
