ghost use Rattle.std.specs.Prelude.{◌≡◌, ◌≤◌, ◌<◌, ◌∷◌, ℕ, [], Some};
ghost use Rattle.language_limits.specs.declared.TheConstants.{GREATEST_COUNT, GREATEST_QUOTA};
ghost use Rattle.block_arena.specs.Region.{with_given};
ghost use Rattle.deque_list.specs.DequeLists.{lane_room};
ghost use Rattle.node_table.specs.Table.{Table};
ghost use Rattle.open_periods.specs.Periods.{Period};
ghost use Rattle.open_periods.specs.Tables.{HasRoom, period_at};
ghost use Rattle.thread_points.specs.Points.{words_at_end};
ghost use Rattle.thread_frames.specs.Actions.{IsEnd};
ghost use Rattle.thread_frames.specs.Points.{IsAtPoint, IsPlaced, IsResult};
ghost use Rattle.thread_frames.specs.Views.{next_of, done_of, label_of, ended_label};
ghost use Rattle.list_changes.specs.Shown.{Stands, Becomes, deque_with};
ghost use Rattle.list_changes.specs.Seats.{KeepsSeats, LeavesSeat};
ghost use Rattle.thread_actions.specs.Acts.{EndsAboveBy, EndsAndWakesBy, EndsAndLeavesBy};

use crate::done::end_done;
use block_arena::Pool;
use containers::Boxed;
use deque_list::{DequeId, List};
use open_periods::PeriodTable;
use thread_frames::{Ended, Thread, give_record};

/// Does the End of a thread whose parent stands directly below, and runs next in the same period.
pub fn end_above(
    list: &List<Boxed<Thread>>,
    table: &mut PeriodTable,
    pool: &mut Pool,
    worker: usize,
    deque: DequeId,
    top: &mut Boxed<Thread>,
) -> Ended
    requires placed { IsPlaced top.old }
    requires next { IsEnd (next_of top.old) }
    requires count { done_of top.old < GREATEST_COUNT }
    requires live { words_at_end (label_of top.old) ≤ pool.old.live }
    requires table { HasRoom table.old worker }
    requires fits { (p : Period) → period_at table.old worker ≡ Some p → p.used ≤ GREATEST_QUOTA }
    ensures acts { EndsAboveBy worker deque top.old list.now table.old table.new result }
    ensures seats { KeepsSeats table.old table.new }
    ensures id { result.id ≡ top.old.id }
    ensures func { result.func ≡ top.old.func }
    ensures label { ended_label result ≡ label_of top.old }
    ensures pool { pool.new ≡ with_given pool.old (words_at_end (label_of top.old)) }
    ensures result { (t : Table) (k : ℕ) → IsAtPoint t k top.old → IsResult t k result }
{
    let finished = end_done(top);
    give_record(finished.record, pool);
    list_changes::end_above(list, table, worker, deque, finished.name);
    finished.ended
}

/// Does the End of a thread that is alone in its deque, and whose parent, which waited for it, takes its place there.
pub fn end_and_wake(
    list: &mut List<Boxed<Thread>>,
    table: &mut PeriodTable,
    pool: &mut Pool,
    worker: usize,
    deque: DequeId,
    top: &mut Boxed<Thread>,
    parent: Boxed<Thread>,
) -> Ended
    requires placed { IsPlaced top.old }
    requires next { IsEnd (next_of top.old) }
    requires count { done_of top.old < GREATEST_COUNT }
    requires live { words_at_end (label_of top.old) ≤ pool.old.live }
    requires stands { Stands list.old worker deque [] }
    requires room { 1 ≤ lane_room list.old deque }
    requires table { HasRoom table.old worker }
    requires fits { (p : Period) → period_at table.old worker ≡ Some p → p.used ≤ GREATEST_QUOTA }
    ensures acts { EndsAndWakesBy worker deque top.old parent list.old table.old list.new table.new result }
    ensures deques { (stands : Stands list.old worker deque [])
        → Becomes stands list.new (deque_with deque (Some worker) (parent ∷ []) ∷ []) }
    ensures seats { KeepsSeats table.old table.new }
    ensures id { result.id ≡ top.old.id }
    ensures label { ended_label result ≡ label_of top.old }
    ensures pool { pool.new ≡ with_given pool.old (words_at_end (label_of top.old)) }
    ensures result { (t : Table) (k : ℕ) → IsAtPoint t k top.old → IsResult t k result }
{
    let finished = end_done(top);
    give_record(finished.record, pool);
    list_changes::end_and_wake(list, table, worker, deque, parent, finished.name);
    finished.ended
}

/// Does the End of a thread that is alone in its deque and for which nobody waits: the deque leaves the list, and the period ends.
pub fn end_and_leave(
    list: &mut List<Boxed<Thread>>,
    table: &mut PeriodTable,
    pool: &mut Pool,
    worker: usize,
    deque: DequeId,
    top: &mut Boxed<Thread>,
) -> Ended
    requires placed { IsPlaced top.old }
    requires next { IsEnd (next_of top.old) }
    requires count { done_of top.old < GREATEST_COUNT }
    requires live { words_at_end (label_of top.old) ≤ pool.old.live }
    requires stands { Stands list.old worker deque [] }
    requires table { HasRoom table.old worker }
    requires fits { (p : Period) → period_at table.old worker ≡ Some p → p.used ≤ GREATEST_QUOTA }
    ensures acts { EndsAndLeavesBy worker deque top.old list.old table.old list.new table.new result }
    ensures deques { (stands : Stands list.old worker deque []) → Becomes stands list.new [] }
    ensures seats { LeavesSeat worker table.old table.new }
    ensures id { result.id ≡ top.old.id }
    ensures label { ended_label result ≡ label_of top.old }
    ensures pool { pool.new ≡ with_given pool.old (words_at_end (label_of top.old)) }
    ensures result { (t : Table) (k : ℕ) → IsAtPoint t k top.old → IsResult t k result }
{
    let finished = end_done(top);
    give_record(finished.record, pool);
    list_changes::end_and_leave(list, table, worker, deque, finished.name);
    finished.ended
}
