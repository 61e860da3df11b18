//! How the slots of a hall come out.

ghost use Rattle.std.specs.Prelude.{◌≡◌, ◌<◌, [], ◌∷◌, List, None, Some, IfErr, IfOk, MatchResult};
ghost use Rattle.play_rules.specs.declared.ends.RunEnd.{RunEnd as AnyEnd};
ghost use Rattle.turn_table.specs.Tables.{key_of, IsSeatOf};
ghost use Rattle.hall_slots.specs.declared.slot.Slot.{Slot as AnySlot};
ghost use Rattle.hall_slots.specs.declared.slot.Slot.TheVariants as slots;
ghost use Rattle.hall_slots.specs.Takes.{HasAllPlaces};
ghost use Rattle.hall_slots.specs.Closing.{AreLast, BeginWithTwo, HasSeen, IsClosed, MayClose};

use crate::closed::ClosedHall;
use crate::seeing::see_end;
use crate::{HallPlace, HallRow, ListSlot, PoolSlot, Slot};
use containers::Boxed;
use play_rules::RunEnd;

/// The list and the pool, which are the first two of these slots.
fn parts_of(mut values: Vec<Slot>) -> (Boxed<ListSlot>, PoolSlot)
    requires { BeginWithTwo values.items }
    ensures { (lanes : List AnySlot) × (values.items ≡ slots.List result.0 ∷ slots.Pool result.1 ∷ lanes) }
{
    match values.remove(0) {
        Slot::List(list) => match values.remove(0) {
            Slot::Pool(pool) => (list, pool),
            Slot::List(_) | Slot::Lane(_) => unreachable!(),
        },
        Slot::Pool(_) | Slot::Lane(_) => unreachable!(),
    }
}

/// Takes the list and the pool out of a hall with the seat that has all places.
fn close_row(row: HallRow, seat: HallPlace) -> (Boxed<ListSlot>, PoolSlot)
    requires here { IsSeatOf row seat }
    requires lone { HasAllPlaces (key_of row) seat }
    requires some { 0 < seat.hand.note.places }
    requires free { seat.hand.holds ≡ [] }
    ensures { AreLast (key_of row) seat result.0 result.1 }
{
    match row.close(seat) {
        Ok(values) => parts_of(values),
        Err(_) => unreachable!(),
    }
}

/// Closes a hall with the seat that has all places, owns no deque and was answered this end.
pub fn close_at(row: HallRow, seat: HallPlace, end: RunEnd) -> ClosedHall
    requires here { IsSeatOf row seat }
    requires may { MayClose (key_of row) seat }
    requires free { seat.hand.holds ≡ [] }
    requires answered { seat.hand.note.answered ≡ Some end }
    ensures closed { IsClosed (key_of row) seat result.list result.pool end }
    ensures end { result.end ≡ end }
{
    let (list, pool) = close_row(row, seat);
    ClosedHall { end, list, pool }
}

/// Closes a hall with the seat that has all places and owns no deque. If the seat was answered an end, this is the end that is kept.
///
/// # Errors
///
/// No end is kept: then the hall and the seat come back.
pub fn close(row: HallRow, seat: HallPlace) -> Result<ClosedHall, (HallRow, HallPlace)>
    requires here { IsSeatOf row seat }
    requires may { MayClose (key_of row) seat }
    requires free { seat.hand.holds ≡ [] }
    ensures closed { IfOk result (λ closed. IsClosed (key_of row) seat closed.list closed.pool closed.end) }
    ensures told { (end : AnyEnd) → seat.hand.note.answered ≡ Some end → MatchResult result (λ closed. closed.end ≡ end) (λ back. ⊥) }
    ensures open { IfErr result (λ back. HasSeen seat None back.1) }
    ensures here { IfErr result (λ back. IsSeatOf back.0 back.1) }
    ensures key { IfErr result (λ back. key_of back.0 ≡ key_of row) }
{
    let mut seat = seat;
    match see_end(&row, &mut seat) {
        Ok(Some(end)) => {
            let (list, pool) = close_row(row, seat);
            Ok(ClosedHall { end, list, pool })
        }
        Ok(None) => Err((row, seat)),
        Err(_) => unreachable!(),
    }
}
