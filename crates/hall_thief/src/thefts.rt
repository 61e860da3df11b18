//! The two thefts, and what they write into the list and into lanes.

ghost use Rattle.std.specs.Prelude.{◌≡◌, ◌≢◌, ◌+◌, ◌<◌, ◌≤◌, ◌∷◌, ◌++◌, [], ℕ, List as AnyList, Option as AnyOption, None, Some, length};
ghost use Rattle.deque_list.specs.Ids.{IsSmallestFree, place_ids};
ghost use Rattle.hall_slots.specs.Passed.Parts.{Has, place_with};
ghost use Rattle.hall_slots.specs.Passed.Thread.{Thread as AnyThread};
ghost use Rattle.hall_thief.specs.Thefts.{IsRobbed};
ghost use Rattle.hall_thief.specs.HallNames.{key_of, slot_count, IsSeatOf, MeetsLaw};
ghost use Rattle.hall_thief.specs.Stealing.{HasStolenIn, MayTakeBottom, MayTakeOver};

use crate::puts::{put_beside, put_over};
use containers::Boxed;
use deque_list::DequeId;
use hall_slots::{HallPlace, HallRow, LaneSlot, ListSlot, Running};
use open_periods::Period;

/// Begins a period for a worker in a lane.
pub(crate) fn begin_in(lane: &mut LaneSlot, worker: u32, period: Period)
    ensures lane { lane.new.lane ≡ lane.old.lane }
    ensures running { lane.new.running ≡ Some (record { worker = worker; period = period }) }
{
    lane.running = Some(Running { worker, period });
}

/// Gives a deque that nobody owns to a worker, for whom the period of this number begins.
pub(crate) fn own_in(list: &mut Boxed<ListSlot>, id: DequeId, worker: u32, number: u32)
    requires has { Has list.old.part.order.places id None }
    requires number { number ≡ list.old.part.begun + 1 }
    requires open { list.old.end ≡ None }
    ensures { (has : Has list.old.part.order.places id None)
        → IsRobbed list.old list.new (has.left ++ place_with id (Some worker) ∷ has.right) }
{
    let list = list.get_mut();
    list.part.order.take_over(id, worker);
    list.part.begun = number;
}

/// Puts the next free deque to the right of another, for a worker for whom the period of this number begins.
pub(crate) fn insert_in(
    list: &mut Boxed<ListSlot>,
    victim: DequeId,
    id: DequeId,
    worker: u32,
    number: u32,
)
    requires has { (owner : AnyOption ℕ) × Has list.old.part.order.places victim owner }
    requires id { IsSmallestFree (place_ids list.old.part.order.places) id }
    requires few { length list.old.part.order.places ≢ list.old.part.order.most }
    requires number { number ≡ list.old.part.begun + 1 }
    requires open { list.old.end ≡ None }
    ensures { (owner : AnyOption ℕ) (has : Has list.old.part.order.places victim owner)
        → IsRobbed list.old list.new (has.left ++ place_with victim owner ∷ place_with id (Some worker) ∷ has.right) }
{
    let list = list.get_mut();
    match list.part.order.insert_right(victim, worker) {
        Ok(_) => {}
        Err(_) => unreachable!(),
    }
    list.part.begun = number;
}

/// Moves the bottom thread of a lane that has two at least into an empty one.
pub(crate) fn move_bottom(lane: &mut LaneSlot, new: &mut LaneSlot)
    requires more { (first : AnyThread) × (others : AnyList AnyThread) × (bottom : AnyThread)
        × (lane.old.lane.items ≡ first ∷ (others ++ bottom ∷ [])) }
    requires room { 1 ≤ new.old.lane.spare }
    requires empty { new.old.lane.items ≡ [] }
    ensures items { (first : AnyThread) (others : AnyList AnyThread) (bottom : AnyThread)
        → lane.old.lane.items ≡ first ∷ (others ++ bottom ∷ []) → (lane.new.lane.items ≡ first ∷ others) × (new.new.lane.items ≡ bottom ∷ []) }
    ensures running { lane.new.running ≡ lane.old.running }
{
    let Some(bottom) = lane.lane.take_bottom() else {
        unreachable!();
    };
    new.lane.push_top(bottom);
}

/// Takes a deque over that nobody owns and that has one thread, in the period that begins with it, and puts the slots back.
pub fn take_over(
    row: &HallRow,
    seat: &mut HallPlace,
    list: Boxed<ListSlot>,
    id: DequeId,
    lane: LaneSlot,
    worker: u32,
    period: Period,
)
    requires here { IsSeatOf row.now seat.old }
    requires slot { id.0 + 2 < slot_count row.now }
    requires may { MayTakeOver (key_of row.now) seat.old list id lane worker period }
    ensures seat { HasStolenIn seat.old id period.number seat.new }
    ensures meets { MeetsLaw (key_of row.now) seat.new }
{
    let mut list = list;
    let mut lane = lane;
    own_in(&mut list, id, worker, period.number);
    begin_in(&mut lane, worker, period);
    put_over(row, seat, id, list, lane);
}

/// Takes the bottom thread of a deque that has two at least into a free one, in the period that begins with it, and puts the slots back.
/// `new` is to be the lane of the free deque, and has room.
pub fn take_bottom(
    row: &HallRow,
    seat: &mut HallPlace,
    list: Boxed<ListSlot>,
    victim: DequeId,
    lane: LaneSlot,
    id: DequeId,
    new: LaneSlot,
    worker: u32,
    period: Period,
)
    requires here { IsSeatOf row.now seat.old }
    requires slot { id.0 + 2 < slot_count row.now }
    requires victim { victim.0 + 2 < slot_count row.now }
    requires may { MayTakeBottom (key_of row.now) seat.old list victim lane id new worker period }
    ensures seat { HasStolenIn seat.old id period.number seat.new }
    ensures meets { MeetsLaw (key_of row.now) seat.new }
{
    let mut list = list;
    let mut lane = lane;
    let mut new = new;
    move_bottom(&mut lane, &mut new);
    insert_in(&mut list, victim, id, worker, period.number);
    begin_in(&mut new, worker, period);
    put_beside(row, seat, victim, id, list, lane, new);
}
