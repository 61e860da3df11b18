//! How an owner gives its deque up though nothing asks for it.

ghost use Rattle.std.specs.Prelude.{◌≡◌, ◌≢◌, ℕ, ◌+◌, ◌<◌, [], Option, IfOk, IsOk, MatchResult, OnOk, Some};
ghost use Rattle.dag_order.specs.declared.finish.Finish.{Finish as AnyFinish};
ghost use Rattle.hall_slots.specs.Passed.Parts.{Has};
ghost use Rattle.hall_actions.specs.Passed.HallNames.{Running as AnyRunning, key_of, slot_count, IsSeatOf, AreTaken, HasAllPlaces, MeetsLaw};
ghost use Rattle.hall_actions.specs.Passed.Rooms.{HasMoreBooks};
ghost use Rattle.play_rules.specs.declared.ends.RunEnd.TheVariants.{Finished};
ghost use Rattle.hall_actions.specs.Passed.Puts.{note_of, HasPut};
ghost use Rattle.hall_slots.specs.declared.slot.Slot.TheVariants as slots;
ghost use Rattle.hall_actions.specs.Advancing.{MayCome, IsNotBusy as IsNotRefused};
ghost use Rattle.hall_owner.specs.Yielding.{GivesUp, HasBoth, IsBusy, IsGivenUp, MayYield, MayNoteBoth};

use containers::Boxed;
use deque_list::DequeId;
use hall_actions::{ActRefused, Noting, make_room_to_close, put_list_and_lane, return_answered};
use hall_slots::{
    HallPlace, HallRow, LaneSlot, ListSlot, end_of, give_lane_back, take_lane, take_list,
};
use play_rules::Stop;
use std::alloc::AllocError;
use turn_table::Held;

/// Takes the lane of the deque, and then the list. Fails if another seat holds one of them (never, if this one has all places). The seat holds
/// nothing.
pub(crate) fn take_both(
    row: &HallRow,
    seat: &mut HallPlace,
    deque: DequeId,
) -> Result<(LaneSlot, Boxed<ListSlot>), Held>
    requires here { IsSeatOf row.now seat.old }
    requires slot { deque.0 + 2 < slot_count row.now }
    requires may { MayYield seat.old deque }
    ensures seat { MatchResult result (λ taken. AreTaken seat.old (deque.0 + 2) (slots.Lane taken.0) 0 (slots.List taken.1) seat.new)
        (λ held. IsBusy seat.old deque held seat.new) }
    ensures meets { IfOk result (λ _. MeetsLaw (key_of row.now) seat.new) }
    ensures lone { HasAllPlaces (key_of row.now) seat.old → IsOk result }
{
    let lane = take_lane(row, seat, deque)?;
    match take_list(row, seat) {
        Ok(list) => Ok((lane, list)),
        Err(held) => {
            give_lane_back(row, seat, deque, lane);
            Err(held)
        }
    }
}

/// Gives the deque up in the list that was taken, if there is memory to close its period, and gives its lane, in which none runs then. Fails if
/// there is not enough memory. The lane comes back.
pub(crate) fn give_up_in(
    list: &mut Boxed<ListSlot>,
    deque: DequeId,
    lane: LaneSlot,
) -> Result<LaneSlot, LaneSlot>
    requires has { (owner : Option ℕ) × Has list.old.part.order.places deque owner }
    requires runs { (running : AnyRunning) × (lane.running ≡ Some running) }
    ensures { MatchResult result (λ left. IsGivenUp deque list.old lane list.new left) (λ back. HasMoreBooks list.old list.new × (back ≡ lane)) }
{
    let list = list.get_mut();
    match make_room_to_close(list) {
        Ok(()) => (),
        Err(_) => return Err(lane),
    }
    let LaneSlot { lane, running } = lane;
    let Some(running) = running else {
        unreachable!();
    };
    list.give_up(deque, running);
    let running = None;
    Ok(LaneSlot { lane, running })
}

/// Gives the deque up with its lane and the list, if there is memory to close its period, and puts both back, by which the seat notes this. Fails
/// if there is not enough memory: what was taken is put back as it was, with the other note.
pub(crate) fn give_up_with(
    row: &HallRow,
    seat: &mut HallPlace,
    deque: DequeId,
    list: Boxed<ListSlot>,
    lane: LaneSlot,
    noting: Noting,
    short: Noting,
) -> Result<(), AllocError>
    requires here { IsSeatOf row.now seat.old }
    requires slot { deque.0 + 2 < slot_count row.now }
    requires both { HasBoth (key_of row.now) seat.old deque list lane }
    requires notes { MayNoteBoth (key_of row.now) seat.old deque list lane noting short }
    ensures seat { MatchResult result (λ _. HasPut seat.old (note_of seat.old.hand.note noting) [] seat.new)
        (λ _. HasPut seat.old (note_of seat.old.hand.note short) [] seat.new) }
{
    let mut list = list;
    match give_up_in(&mut list, deque, lane) {
        Ok(lane) => {
            put_list_and_lane(row, seat, deque, list, lane, noting);
            Ok(())
        }
        Err(lane) => {
            put_list_and_lane(row, seat, deque, list, lane, short);
            Err(AllocError)
        }
    }
}

/// Gives the deque of a seat up though nothing asks for it, if no end is kept. No statement of its threads runs.
///
/// # Errors
///
/// Another seat holds the lane or the list (never, if this one has all places), or an end is kept in the list, which the seat is answered. Or there
/// is not enough memory to close the period: this is the stop that the seat finds. The moment of the hall is what it was, and the seat holds
/// nothing.
pub fn give_up_deque(row: &HallRow, seat: &mut HallPlace, deque: DequeId) -> Result<(), ActRefused>
    requires here { IsSeatOf row.now seat.old }
    requires slot { deque.0 + 2 < slot_count row.now }
    requires may { MayCome seat.old deque }
    ensures seat { GivesUp seat.old deque result seat.new }
    ensures unfinished { OnOk result ((finish : AnyFinish) → seat.old.hand.note.answered ≢ Some (Finished finish)) }
    ensures lone { HasAllPlaces (key_of row.now) seat.old → IsNotRefused result }
{
    let (lane, list) = match take_both(row, seat, deque) {
        Ok(taken) => taken,
        Err(held) => return Err(ActRefused::Busy(held)),
    };
    if let Some(end) = end_of(&list) {
        return_answered(row, seat, deque, list, lane);
        return Err(ActRefused::Over(end));
    }
    let short = Noting::Found(Stop::OutOfMemory);
    match give_up_with(row, seat, deque, list, lane, Noting::Yields(deque), short) {
        Ok(()) => Ok(()),
        Err(_) => Err(ActRefused::Stopped(Stop::OutOfMemory)),
    }
}
