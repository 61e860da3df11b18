//! What a thief reads of the list that it holds, and what it makes before it steals.

ghost use Rattle.std.specs.Prelude.{◌≡◌, ◌+◌, ◌<◌, ◌≤◌, ◌↔◌, true, IfOk, IfSome, IsNone, OnOk, length, slice_get};
ghost use Rattle.deque_list.specs.Ids.{IsSmallestFree, place_ids};
ghost use Rattle.hall_thief.specs.Stealing.{IsNew};

use containers::Boxed;
use deque_list::{DequeId, Place};
use hall_slots::{LaneSlot, ListSlot};
use open_periods::Period;
use std::alloc::{AllocError, Global};

/// The deque at a place, with its owner.
pub(crate) fn deque_at(list: &Boxed<ListSlot>, place: u32) -> Option<Place>
    ensures { result ≡ slice_get list.now.part.order.places place }
{
    list.get().part.order.place(place)
}

/// The id that the next deque gets; None exactly where there are as many deques as may be.
pub(crate) fn next_deque(list: &Boxed<ListSlot>) -> Option<DequeId>
    ensures none { IsNone result ↔ (length list.now.part.order.places ≡ list.now.part.order.most) }
    ensures id { IfSome result (λ id. IsSmallestFree (place_ids list.now.part.order.places) id) }
    ensures below { IfSome result (λ id. id.0 < list.now.part.order.most) }
{
    list.get().part.order.next_id()
}

/// How many deques there may be.
pub(crate) fn most_deques(list: &Boxed<ListSlot>) -> u32
    ensures { result ≡ list.now.part.order.most }
{
    list.get().part.order.most()
}

/// The next period, in which nothing is done yet. Fails if there is not enough memory, or each number of a period is taken: a run would have to
/// begin 4,294,967,295 periods.
pub(crate) fn next_period(
    list: &Boxed<ListSlot>,
    alloc: Global,
    ahead: bool,
) -> Result<Period, AllocError>
    ensures { IfOk result (λ period. IsNew period ahead (list.now.part.begun + 1)) }
{
    match list.get().part.begun.checked_add(1) {
        Some(number) => Period::start(alloc, number, ahead),
        None => Err(AllocError),
    }
}

/// The next period, which has a deque to its left, and room for a thread in the lane of its deque. Fails if there is not enough memory, or each
/// number of a period is taken. The lane shows what it showed.
pub(crate) fn next_beside(
    list: &Boxed<ListSlot>,
    new: &mut LaneSlot,
    alloc: Global,
) -> Result<Period, AllocError>
    ensures period { IfOk result (λ period. IsNew period true (list.now.part.begun + 1)) }
    ensures items { new.new.lane.items ≡ new.old.lane.items }
    ensures running { new.new.running ≡ new.old.running }
    ensures room { OnOk result (1 ≤ new.new.lane.spare) }
{
    let period = next_period(list, alloc, true)?;
    new.lane.reserve()?;
    Ok(period)
}
