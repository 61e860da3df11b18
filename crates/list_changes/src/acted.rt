//! Behind an action the top thread goes back on top of its deque.

ghost use Rattle.std.specs.Prelude.{◌≡◌, ◌≤◌, ◌+◌, ℕ, List as AnyList, [], ◌∷◌, None, Some};
ghost use Rattle.language_limits.specs.declared.TheConstants.{GREATEST_QUOTA};
ghost use Rattle.open_periods.specs.Passed.Actions.{record_words};
ghost use Rattle.deque_list.specs.DequeLists.{lane_room};
ghost use Rattle.open_periods.specs.Periods.{Period};
ghost use Rattle.open_periods.specs.Tables.{HasRoom, period_at};
ghost use Rattle.list_changes.specs.Shown.{Stands, Becomes, deque_with};
ghost use Rattle.list_changes.specs.Seats.{KeepsSeats, LeavesSeat};
ghost use Rattle.list_changes.specs.Events.{BecomesBy, DidAlone, DidDummy, DidJoin, DidFork};

use dag_order::{ActionId, Birth};
use deque_list::{DequeId, List};
use language_limits::RECORD_WORDS;
use open_periods::PeriodTable;

/// The thread that did the action of this name, which took so many words of the quota, goes back on top of the worker's deque.
pub fn put_back<T>(
    list: &mut List<T>,
    table: &mut PeriodTable,
    worker: usize,
    deque: DequeId,
    top: T,
    name: ActionId,
    words: u32,
)
    requires stands { (items : AnyList T) × Stands list.old worker deque items }
    requires room { 1 ≤ lane_room list.old deque }
    requires table { HasRoom table.old worker }
    requires fits { (p : Period) → period_at table.old worker ≡ Some p → p.used + words ≤ GREATEST_QUOTA }
    ensures alone { (items : AnyList T) → BecomesBy worker deque items list.old table.old list.new table.new
        (λ shown k l period was place. DidAlone k l period was (shown top) name words place) }
    ensures joins { (items : AnyList T) → BecomesBy worker deque items list.old table.old list.new table.new
        (λ shown k l period was place. DidJoin k l was (shown top) name words place) }
    ensures deques { (items : AnyList T) (stands : Stands list.old worker deque items)
        → Becomes stands list.new (deque_with deque (Some worker) (top ∷ items) ∷ []) }
    ensures seats { KeepsSeats table.old table.new }
{
    list.push_top(deque, top);
    table.note(worker, name, words, None);
}

/// The same behind a Dummy, with which the period ends: the deque stays without an owner.
pub fn put_back_and_give_up<T>(
    list: &mut List<T>,
    table: &mut PeriodTable,
    worker: usize,
    deque: DequeId,
    top: T,
    name: ActionId,
)
    requires stands { (items : AnyList T) × Stands list.old worker deque items }
    requires room { 1 ≤ lane_room list.old deque }
    requires table { HasRoom table.old worker }
    requires fits { (p : Period) → period_at table.old worker ≡ Some p → p.used ≤ GREATEST_QUOTA }
    ensures dummy { (items : AnyList T) → BecomesBy worker deque items list.old table.old list.new table.new
        (λ shown k l period was place. DidDummy k l was (shown top) name 0 place) }
    ensures deques { (items : AnyList T) (stands : Stands list.old worker deque items)
        → Becomes stands list.new (deque_with deque None (top ∷ items) ∷ []) }
    ensures seats { LeavesSeat worker table.old table.new }
{
    list.push_top(deque, top);
    list.give_up(deque);
    table.note(worker, name, 0, None);
    table.close(worker);
}

/// The same behind a Fork: the child stands on top of its parent.
pub fn put_both_back<T>(
    list: &mut List<T>,
    table: &mut PeriodTable,
    worker: usize,
    deque: DequeId,
    top: T,
    child: T,
    name: ActionId,
    ordinal: u32,
)
    requires stands { (items : AnyList T) × Stands list.old worker deque items }
    requires room { 2 ≤ lane_room list.old deque }
    requires table { HasRoom table.old worker }
    requires fits { (p : Period) → period_at table.old worker ≡ Some p → p.used + record_words ≤ GREATEST_QUOTA }
    ensures forks { (items : AnyList T) → BecomesBy worker deque items list.old table.old list.new table.new
        (λ shown k l period was place. DidFork k l period was (shown top) (shown child) name record_words place ordinal) }
    ensures deques { (items : AnyList T) (stands : Stands list.old worker deque items)
        → Becomes stands list.new (deque_with deque (Some worker) (child ∷ top ∷ items) ∷ []) }
    ensures seats { KeepsSeats table.old table.new }
{
    list.push_top(deque, top);
    list.push_top(deque, child);
    let birth = Birth {
        parent: name.by,
        ordinal,
    };
    table.note(worker, name, RECORD_WORDS, Some(birth));
}
