//! Whom a thief robs, with the list that it holds.

ghost use Rattle.std.specs.Prelude.{◌≡◌, ◌+◌, ◌<◌, ◌↔◌, ◌∷◌, [], None, IsTrue, IfOk, IsOk, MatchResult};
ghost use Rattle.hall_thief.specs.HallNames.{key_of, slot_count, IsSeatOf, HasAllPlaces, IsPlaced, IsRefused, MeetsLaw};
ghost use Rattle.hall_slots.specs.declared.slot.Slot.TheVariants as slots;
ghost use Rattle.hall_thief.specs.Choosing.{HasChosen, HasTried, HoldsTheList, IsReadyBy, IsRefusedALane};
ghost use Rattle.hall_thief.specs.Seeking.{IsNotBusy, SeeksWith};

use crate::prey::{Prey, SeekRefused};
use containers::Boxed;
use deque_list::Place;
use hall_slots::{
    HallPlace, HallRow, LaneSlot, ListSlot, end_of, give_lane_back, give_list_back, put_answered,
    take_lane,
};
use play_rules::picked;
use turn_table::Held;

/// Whether the deque at a place has a thread to steal: nobody owns it, or its owner has another one.
fn is_ready(place: Place, lane: &LaneSlot) -> bool
    ensures { IsTrue result ↔ IsReadyBy place lane.now }
{
    place.owner.is_none() || 2 <= lane.lane.len()
}

/// Takes the lane of the deque at a place, and keeps it if there is a thread to steal. Fails if another seat holds the lane.
fn try_place(row: &HallRow, seat: &mut HallPlace, place: Place) -> Result<Option<LaneSlot>, Held>
    requires here { IsSeatOf row.now seat.old }
    requires placed { IsPlaced seat.old }
    requires holds { HoldsTheList seat.old }
    requires slot { place.id.0 + 2 < slot_count row.now }
    ensures seat { MatchResult result (λ found. HasTried place seat.old found seat.new) (λ held. IsRefused seat.old (place.id.0 + 2) held seat.new) }
    ensures meets { IfOk result (λ _. MeetsLaw (key_of row.now) seat.new) }
    ensures lone { HasAllPlaces (key_of row.now) seat.old → IsOk result }
{
    let lane = take_lane(row, seat, place.id)?;
    if is_ready(place, &lane) {
        return Ok(Some(lane));
    }
    give_lane_back(row, seat, place.id, lane);
    Ok(None)
}

/// The place of the first deque in reach that has a thread to steal, in the order that a word picks, with its lane, which the seat holds then;
/// None where none has.
///
/// # Errors
///
/// Another seat holds the lane of a deque that was to be tried. The seat is back.
pub fn choose(
    row: &HallRow,
    seat: &mut HallPlace,
    list: &Boxed<ListSlot>,
    workers: u32,
    word: u64,
) -> Result<Option<(u32, LaneSlot)>, Held>
    requires here { IsSeatOf row.now seat.old }
    requires placed { IsPlaced seat.old }
    requires holds { seat.old.hand.holds ≡ (0, slots.List list.now) ∷ [] }
    requires meets { MeetsLaw (key_of row.now) seat.old }
    ensures seat { MatchResult result (λ found. HasChosen workers word list.now seat.old found seat.new)
        (λ held. IsRefusedALane workers word list.now seat.old held seat.new) }
    ensures meets { IfOk result (λ _. MeetsLaw (key_of row.now) seat.new) }
    ensures lone { HasAllPlaces (key_of row.now) seat.old → IsOk result }
{
    let order = &list.get().part.order;
    let reach = order.leftmost(workers);
    'tries: for turn in 0..reach {
        let at = picked(word, turn, reach);
        let Some(place) = order.place(at) else {
            unreachable!();
        };
        if let Some(lane) = try_place(row, seat, place)? {
            return Ok(Some((at, lane)));
        }
    }
    Ok(None)
}

/// Finds a deque in reach that has a thread to steal, the first in the order that a word picks, with the list that the seat holds alone. The seat
/// holds the list and the lane of this deque then.
///
/// # Errors
///
/// Another seat holds the lane of a deque that was to be tried, an end is kept, or no deque in reach has a thread to steal. The seat holds
/// nothing then.
pub fn seek(
    row: &HallRow,
    seat: &mut HallPlace,
    list: Boxed<ListSlot>,
    workers: u32,
    word: u64,
) -> Result<Prey, SeekRefused>
    requires here { IsSeatOf row.now seat.old }
    requires placed { IsPlaced seat.old }
    requires holds { seat.old.hand.holds ≡ (0, slots.List list) ∷ [] }
    requires meets { MeetsLaw (key_of row.now) seat.old }
    ensures seat { SeeksWith workers word list seat.old seat.new result }
    ensures meets { IfOk result (λ _. MeetsLaw (key_of row.now) seat.new) }
    ensures lone { HasAllPlaces (key_of row.now) seat.old → IsNotBusy result }
{
    if let Some(end) = end_of(&list) {
        put_answered(row, seat, list);
        return Err(SeekRefused::Over(end));
    }
    match choose(row, seat, &list, workers, word) {
        Ok(Some((place, lane))) => Ok(Prey { list, place, lane }),
        Ok(None) => {
            give_list_back(row, seat, list);
            Err(SeekRefused::Nothing)
        }
        Err(held) => {
            give_list_back(row, seat, list);
            Err(SeekRefused::Busy(held))
        }
    }
}
