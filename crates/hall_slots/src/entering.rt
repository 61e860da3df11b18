//! How a worker enters.

ghost use Rattle.std.specs.Prelude.{◌≡◌, [], ◌∷◌, None, IfOk};
ghost use Rattle.turn_table.specs.Tables.{key_of, IsSeatOf};
ghost use Rattle.hall_slots.specs.declared.slot.Slot.TheVariants as slots;
ghost use Rattle.hall_slots.specs.Takes.{HasAllPlaces, MeetsLaw};
ghost use Rattle.hall_slots.specs.Entering.{EntersWith, FindsListFree, HasEntered, MayEnter};

use crate::entered_lists::enter_in;
use crate::lists::{end_of, put_answered, put_same};
use crate::puts::{put_named, split};
use crate::refused::EnterRefused;
use crate::{HallPlace, HallRow, ListSlot, take_list};
use containers::Boxed;

/// What `enter` does where no end is kept.
fn enter_open(
    row: &HallRow,
    seat: &mut HallPlace,
    list: Boxed<ListSlot>,
    workers: u32,
) -> Result<(HallPlace, u32), EnterRefused>
    requires here { IsSeatOf row.now seat.old }
    requires may { MayEnter (key_of row.now) seat.old workers }
    requires holds { seat.old.hand.holds ≡ (0, slots.List list) ∷ [] }
    requires meets { MeetsLaw (key_of row.now) seat.old }
    requires no_end { list.end ≡ None }
    ensures seat { EntersWith (key_of row.now) list seat.old seat.new result }
    ensures made { IfOk result (λ made. IsSeatOf row.now made.0) }
{
    let mut list = list;
    match enter_in(&mut list, workers) {
        Ok(worker) => {
            put_named(row, seat, list);
            Ok((split(row, seat), worker))
        }
        Err(_) => {
            put_same(row, seat, list);
            Err(EnterRefused::OutOfMemory)
        }
    }
}

/// What `enter` does once it has the list.
fn enter_with(
    row: &HallRow,
    seat: &mut HallPlace,
    list: Boxed<ListSlot>,
    workers: u32,
) -> Result<(HallPlace, u32), EnterRefused>
    requires here { IsSeatOf row.now seat.old }
    requires may { MayEnter (key_of row.now) seat.old workers }
    requires holds { seat.old.hand.holds ≡ (0, slots.List list) ∷ [] }
    requires meets { MeetsLaw (key_of row.now) seat.old }
    ensures seat { EntersWith (key_of row.now) list seat.old seat.new result }
    ensures made { IfOk result (λ made. IsSeatOf row.now made.0) }
{
    match end_of(&list) {
        Some(end) => {
            put_answered(row, seat, list);
            Err(EnterRefused::Over(end))
        }
        None => enter_open(row, seat, list, workers),
    }
}

/// Lets a worker enter by a seat that has two places, of which it gives one to the worker's new seat. Answers this seat and the worker.
///
/// # Errors
///
/// Another seat holds the list, an end is kept there, or there is not enough memory.
pub fn enter(
    row: &HallRow,
    seat: &mut HallPlace,
    workers: u32,
) -> Result<(HallPlace, u32), EnterRefused>
    requires here { IsSeatOf row.now seat.old }
    requires may { MayEnter (key_of row.now) seat.old workers }
    requires free { seat.old.hand.holds ≡ [] }
    ensures seat { HasEntered (key_of row.now) seat.old seat.new result }
    ensures made { IfOk result (λ made. IsSeatOf row.now made.0) }
    ensures lone { HasAllPlaces (key_of row.now) seat.old → FindsListFree result }
{
    match take_list(row, seat) {
        Ok(list) => enter_with(row, seat, list, workers),
        Err(held) => Err(EnterRefused::Busy(held)),
    }
}
