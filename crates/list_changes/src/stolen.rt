//! Thefts: how an idle worker comes to a deque.

ghost use Rattle.std.specs.Prelude.{◌≡◌, ◌<◌, ◌+◌, ◌∷◌, ◌++◌, [], ℕ, List as AnyList, Option, None, Some, true, length};
ghost use Rattle.language_limits.specs.declared.TheConstants.{GREATEST_COUNT};
ghost use Rattle.open_periods.specs.Passed.BoundedList.{entries};
ghost use Rattle.open_periods.specs.Tables.{seat_at};
ghost use Rattle.deque_list.specs.Ids.{IsSmallestFree};
ghost use Rattle.deque_list.specs.Deques.{deque_ids};
ghost use Rattle.list_changes.specs.Shown.{Holds, Becomes, IsCut, deque_with};
ghost use Rattle.list_changes.specs.Seats.{TakesSeat};
ghost use Rattle.list_changes.specs.Events.{StoleBeside, TookOver};

use deque_list::{DequeId, List};
use open_periods::{Period, PeriodTable};

/// A worker takes the bottom thread of a deque that keeps other threads into a new deque directly to the right of it; the answer is the new
/// deque. The period is new, has the next number, and is marked, since there is a deque to the left.
pub fn steal_beside<T: Drop>(
    list: &mut List<T>,
    table: &mut PeriodTable,
    worker: u32,
    victim: DequeId,
    period: Period,
) -> DequeId
    requires victim { (owner : Option ℕ) × (first : T) × (others : AnyList T) × (bottom : T)
        × Holds list.old victim owner (first ∷ (others ++ bottom ∷ [])) }
    requires room { list.old.spare ≡ 1 }
    requires few_deques { length list.old.deques < list.old.most }
    requires within { worker < length table.old.seats.items }
    requires idle { seat_at table.old worker ≡ None }
    requires few { table.old.begun < GREATEST_COUNT }
    requires number { period.number ≡ table.old.begun + 1 }
    requires marked { period.ahead ≡ true }
    requires unused { period.used ≡ 0 }
    requires ran_nothing { entries period.book ≡ [] }
    requires bore_none { entries period.births ≡ [] }
    ensures steals { StoleBeside worker victim list.old table.old list.new table.new result }
    ensures deques { (owner : Option ℕ) (first : T) (others : AnyList T) (bottom : T)
        (holds : Holds list.old victim owner (first ∷ (others ++ bottom ∷ [])))
        → IsCut holds list.new (deque_with victim owner (first ∷ others)) (deque_with result (Some worker) (bottom ∷ [])) }
    ensures seats { TakesSeat worker result table.old table.new }
    ensures id { IsSmallestFree (deque_ids list.old.deques) result }
{
    let Some(bottom) = list.take_bottom(victim) else {
        unreachable!();
    };
    let Ok(id) = list.insert_right(victim, bottom, worker) else {
        unreachable!();
    };
    table.begin(worker as usize, id, period);
    id
}

/// A worker takes a deque over that has no owner and holds one thread. The period is new, has the next number, and is marked where there is a
/// deque to the left.
pub fn take_over<T>(
    list: &mut List<T>,
    table: &mut PeriodTable,
    worker: u32,
    victim: DequeId,
    period: Period,
)
    requires victim { (thread : T) × Holds list.old victim None (thread ∷ []) }
    requires within { worker < length table.old.seats.items }
    requires idle { seat_at table.old worker ≡ None }
    requires few { table.old.begun < GREATEST_COUNT }
    requires number { period.number ≡ table.old.begun + 1 }
    requires unused { period.used ≡ 0 }
    requires ran_nothing { entries period.book ≡ [] }
    requires bore_none { entries period.births ≡ [] }
    ensures steals { TookOver worker victim list.old table.old list.new table.new period.ahead }
    ensures deques { (thread : T) (holds : Holds list.old victim None (thread ∷ []))
        → Becomes holds list.new (deque_with victim (Some worker) (thread ∷ []) ∷ []) }
    ensures seats { TakesSeat worker victim table.old table.new }
{
    list.take_over(victim, worker);
    table.begin(worker as usize, victim, period);
}
