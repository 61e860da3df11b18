//! How a seat leaves.

ghost use Rattle.std.specs.Prelude.{◌≡◌, ◌<◌, [], ◌∷◌, IfErr, IsOk, MatchResult, ℕ};
ghost use Rattle.deque_machine.specs.Lists.{times};
ghost use Rattle.turn_table.specs.Tables.{key_of, IsSeatOf};
ghost use Rattle.hall_slots.specs.declared.slot.Slot.TheVariants as slots;
ghost use Rattle.hall_slots.specs.ListCalls.{IsOutOf};
ghost use Rattle.hall_slots.specs.Takes.{HasAllPlaces, IsPlaced, IsRefused, MeetsLaw};
ghost use Rattle.hall_slots.specs.Leaving.{end_left, HasJoined, HasLeft, HoldsTheLeft, MayLeave, PutsLeft};

use crate::joining::join;
use crate::{HallPlace, HallRow, ListSlot, Slot, take_list};
use containers::Boxed;
use play_rules::Stop;
use std::marker::Brand;
use turn_table::Held;

/// Lets a worker out of the list, where the stop that its seat found is kept unless an end is.
pub fn leave_in(list: &mut Boxed<ListSlot>, worker: u32, found: Option<Stop>)
    requires { 0 < times worker list.old.crew.items }
    ensures crew { IsOutOf worker list.old.crew.items list.new.crew.items }
    ensures part { list.new.part ≡ list.old.part }
    ensures end { list.new.end ≡ end_left list.old.end found }
{
    let list = list.get_mut();
    if let Some(stop) = found {
        list.keep(stop);
    }
    list.leave(worker);
}

/// Puts the list back that names the worker of the seat no more.
fn put_left(row: &HallRow, seat: &mut HallPlace, list: Boxed<ListSlot>)
    requires here { IsSeatOf row.now seat.old }
    requires holds { HoldsTheLeft seat.old list }
    ensures seat { PutsLeft seat.old seat.new }
    ensures meets { MeetsLaw (key_of row.now) seat.new }
{
    row.put_back::<Brand>(seat, 0, Slot::List(list));
}

/// Takes the worker of a seat out of the list, and keeps the stop there that the seat found, if it found one and no end is kept.
///
/// # Errors
///
/// Another seat holds the list.
fn leave_list(
    row: &HallRow,
    seat: &mut HallPlace,
    worker: u32,
    found: Option<Stop>,
) -> Result<(), Held>
    requires here { IsSeatOf row.now seat.old }
    requires may { MayLeave seat.old worker found }
    requires free { seat.old.hand.holds ≡ [] }
    ensures seat { MatchResult result (λ _. HasLeft seat.old seat.new) (λ held. IsRefused seat.old 0 held seat.new) }
    ensures lone { HasAllPlaces (key_of row.now) seat.old → IsOk result }
{
    let mut list = take_list(row, seat)?;
    leave_in(&mut list, worker, found);
    put_left(row, seat, list);
    Ok(())
}

/// Lets the worker of a seat leave that owns no deque. The other seat has its places besides its own.
///
/// # Errors
///
/// Another seat holds the list: then the seat comes back, with the refusal.
pub fn leave(
    row: &HallRow,
    mut seat: HallPlace,
    into: &mut HallPlace,
    worker: u32,
    found: Option<Stop>,
) -> Result<(), (HallPlace, Held)>
    requires here { IsSeatOf row.now seat × IsSeatOf row.now into.old }
    requires may { MayLeave seat worker found }
    requires free { seat.hand.holds ≡ [] }
    requires placed { IsPlaced into.old }
    ensures seat { MatchResult result (λ _. HasJoined (key_of row.now) into.old seat.hand.note into.new)
        (λ refused. IsRefused seat 0 refused.1 refused.0 × (into.new ≡ into.old)) }
    ensures here { IfErr result (λ refused. IsSeatOf row.now refused.0) }
{
    match leave_list(row, &mut seat, worker, found) {
        Ok(()) => {
            join(row, into, seat);
            Ok(())
        }
        Err(held) => Err((seat, held)),
    }
}
