ghost use Rattle.std.specs.Prelude.{◌≡◌, ◌≤◌, ◌<◌, ◌+◌, ◌↔◌, ℕ, List as AnyList, Some, IsErr, IfErr, OnOk, OnErr, length};
ghost use Rattle.language_limits.specs.declared.TheConstants.{GREATEST_COUNT, GREATEST_QUOTA};
ghost use Rattle.block_arena.specs.Region.{with_taken};
ghost use Rattle.depth_first_list.specs.Actions.{record_words};
ghost use Rattle.deque_list.specs.DequeLists.{lane_room};
ghost use Rattle.open_periods.specs.Periods.{Period};
ghost use Rattle.open_periods.specs.Tables.{HasRoom, period_at};
ghost use Rattle.thread_frames.specs.Actions.{IsFork};
ghost use Rattle.thread_frames.specs.Points.{IsPlaced};
ghost use Rattle.thread_frames.specs.Views.{next_of, done_of};
ghost use Rattle.thread_frames.specs.declared.next.Next.TheVariants as nexts;
ghost use Rattle.list_changes.specs.Shown.{Stands};
ghost use Rattle.list_changes.specs.Seats.{KeepsSeats};
ghost use Rattle.thread_actions.specs.Acts.{ActsBy, ForkFits, GoesBackWithChild};

use crate::done::fork_done;
use block_arena::Pool;
use containers::Boxed;
use dag_order::ThreadId;
use deque_list::{DequeId, List};
use list_changes::put_both_back;
use open_periods::PeriodTable;
use thread_frames::{ArenaFull, Place, Thread};

/// The id of the thread that the period of a worker forks next.
fn next_id(table: &PeriodTable, worker: usize) -> ThreadId
    requires { (p : Period) × (period_at table.now worker ≡ Some p) }
    ensures { (p : Period) → period_at table.now worker ≡ Some p
        → result ≡ record { period = p.number; nth = length p.born } }
{
    let Some(seat) = table.seat(worker) else {
        unreachable!();
    };
    ThreadId {
        period: seat.period.number,
        nth: seat.period.births.len(),
    }
}

/// Does a Fork: the child comes to be in this place, and stands on top of its parent.
///
/// # Errors
///
/// The thread comes back with [`ArenaFull`], exactly where a record block does not fit beside the words that are out. Nothing is changed.
pub fn fork(
    list: &mut List<Boxed<Thread>>,
    table: &mut PeriodTable,
    pool: &mut Pool,
    worker: usize,
    deque: DequeId,
    top: Boxed<Thread>,
    place: Place,
) -> Result<(), (Boxed<Thread>, ArenaFull)>
    requires placed { IsPlaced top }
    requires next { IsFork (next_of top) }
    requires count { done_of top < GREATEST_COUNT }
    requires stands { (items : AnyList Thread) × Stands list.old worker deque items }
    requires room { 2 ≤ lane_room list.old deque }
    requires table { HasRoom table.old worker }
    requires period { (p : Period) × (period_at table.old worker ≡ Some p) }
    requires fits { (p : Period) → period_at table.old worker ≡ Some p → p.used + record_words ≤ GREATEST_QUOTA }
    ensures full { IsErr result ↔ (pool.old.capacity < pool.old.live + record_words) }
    ensures refused { IfErr result (λ e. (e.0 ≡ top) × (e.1 ≡ record { live = pool.old.live; asked = record_words })) }
    ensures same_list { OnErr result (list.new ≡ list.old) }
    ensures same_table { OnErr result (table.new ≡ table.old) }
    ensures same_pool { OnErr result (pool.new ≡ pool.old) }
    ensures acts { OnOk result (ActsBy nexts.Fork worker deque top list.old table.old list.new table.new ForkFits) }
    ensures back { OnOk result (GoesBackWithChild worker deque top list.old list.new) }
    ensures seats { OnOk result (KeepsSeats table.old table.new) }
    ensures pool { OnOk result (pool.new ≡ with_taken pool.old record_words) }
{
    let id = next_id(table, worker);
    let mut top = top;
    match fork_done(&mut top, id, pool, place) {
        Ok(forked) => {
            put_both_back(
                list,
                table,
                worker,
                deque,
                top,
                forked.child,
                forked.name,
                forked.ordinal,
            );
            Ok(())
        }
        Err(full) => Err((top, full)),
    }
}
