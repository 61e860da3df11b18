//! How a worker leaves its deque, or a thread its place.

ghost use Rattle.std.specs.Prelude.{◌≡◌, ◌≤◌, ◌+◌, ℕ, List as AnyList, [], ◌∷◌, None, Some};
ghost use Rattle.language_limits.specs.declared.TheConstants.{GREATEST_QUOTA};
ghost use Rattle.deque_list.specs.DequeLists.{lane_room};
ghost use Rattle.open_periods.specs.Periods.{Period};
ghost use Rattle.space_ledger.specs.BooksList.{books_spare};
ghost use Rattle.open_periods.specs.Tables.{HasRoom, period_at};
ghost use Rattle.list_changes.specs.Shown.{Stands, Becomes, deque_with};
ghost use Rattle.list_changes.specs.Seats.{KeepsSeats, LeavesSeat};
ghost use Rattle.list_changes.specs.Events.{EndsAbove, EndsAndWakes, EndsAndLeaves, GaveUp, Suspended};

use dag_order::ActionId;
use deque_list::{DequeId, List};
use open_periods::PeriodTable;

/// A worker gives its deque up: the top thread goes back, the deque stays without an owner, and the period ends.
pub fn give_up<T>(
    list: &mut List<T>,
    table: &mut PeriodTable,
    worker: usize,
    deque: DequeId,
    top: T,
)
    requires stands { (items : AnyList T) × Stands list.old worker deque items }
    requires room { 1 ≤ lane_room list.old deque }
    requires period { (p : Period) × (period_at table.old worker ≡ Some p) }
    requires books { 1 ≤ books_spare table.old.books }
    ensures gives_up { (items : AnyList T) → GaveUp worker deque items list.old table.old list.new table.new top }
    ensures deques { (items : AnyList T) (stands : Stands list.old worker deque items)
        → Becomes stands list.new (deque_with deque None (top ∷ items) ∷ []) }
    ensures seats { LeavesSeat worker table.old table.new }
{
    list.push_top(deque, top);
    list.give_up(deque);
    table.close(worker);
}

/// The top thread of a deque, which was alone there, waits: its deque leaves the list, and the period ends.
pub fn suspend<T>(list: &mut List<T>, table: &mut PeriodTable, worker: usize, deque: DequeId)
    requires stands { Stands list.old worker deque [] }
    requires period { (p : Period) × (period_at table.old worker ≡ Some p) }
    requires books { 1 ≤ books_spare table.old.books }
    ensures suspends { Suspended worker deque list.old table.old list.new table.new }
    ensures deques { (stands : Stands list.old worker deque []) → Becomes stands list.new [] }
    ensures seats { LeavesSeat worker table.old table.new }
{
    list.remove(deque);
    table.close(worker);
}

/// A thread ended by the action of this name, with its parent directly below, which runs next in the same period.
pub fn end_above<T>(
    list: &List<T>,
    table: &mut PeriodTable,
    worker: usize,
    deque: DequeId,
    name: ActionId,
)
    requires table { HasRoom table.old worker }
    requires fits { (p : Period) → period_at table.old worker ≡ Some p → p.used ≤ GREATEST_QUOTA }
    ensures ends { EndsAbove worker deque list.now table.old table.new name }
    ensures seats { KeepsSeats table.old table.new }
{
    table.note(worker, name, 0, None);
}

/// A thread ended that was alone in its deque, and its parent, which waited for it, takes its place and runs next in the same period.
pub fn end_and_wake<T>(
    list: &mut List<T>,
    table: &mut PeriodTable,
    worker: usize,
    deque: DequeId,
    parent: T,
    name: ActionId,
)
    requires stands { Stands list.old worker deque [] }
    requires room { 1 ≤ lane_room list.old deque }
    requires table { HasRoom table.old worker }
    requires fits { (p : Period) → period_at table.old worker ≡ Some p → p.used ≤ GREATEST_QUOTA }
    ensures ends { EndsAndWakes worker deque list.old table.old list.new table.new name parent }
    ensures deques { (stands : Stands list.old worker deque [])
        → Becomes stands list.new (deque_with deque (Some worker) (parent ∷ []) ∷ []) }
    ensures seats { KeepsSeats table.old table.new }
{
    list.push_top(deque, parent);
    table.note(worker, name, 0, None);
}

/// A thread ended that was alone in its deque, and nobody waits for it: the deque leaves the list, and the period ends.
pub fn end_and_leave<T>(
    list: &mut List<T>,
    table: &mut PeriodTable,
    worker: usize,
    deque: DequeId,
    name: ActionId,
)
    requires stands { Stands list.old worker deque [] }
    requires table { HasRoom table.old worker }
    requires fits { (p : Period) → period_at table.old worker ≡ Some p → p.used ≤ GREATEST_QUOTA }
    ensures ends { EndsAndLeaves worker deque list.old table.old list.new table.new name }
    ensures deques { (stands : Stands list.old worker deque []) → Becomes stands list.new [] }
    ensures seats { LeavesSeat worker table.old table.new }
{
    list.remove(deque);
    table.note(worker, name, 0, None);
    table.close(worker);
}
