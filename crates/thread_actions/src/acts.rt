ghost use Rattle.std.specs.Prelude.{◌≡◌, ◌≤◌, ◌<◌, ◌+◌, ◌↔◌, ℕ, List as AnyList, Some, IsErr, IfErr, OnOk, OnErr, IsTrue};
ghost use Rattle.language_limits.specs.declared.TheConstants.{GREATEST_COUNT, GREATEST_QUOTA};
ghost use Rattle.block_arena.specs.Region.{with_taken, with_given};
ghost use Rattle.deque_list.specs.DequeLists.{lane_room};
ghost use Rattle.open_periods.specs.Periods.{Period};
ghost use Rattle.open_periods.specs.Tables.{HasRoom, period_at};
ghost use Rattle.thread_frames.specs.Actions.{IsAlloc, IsRelease, IsDummy, IsFault, IsJoin, is_there};
ghost use Rattle.thread_frames.specs.Points.{IsPlaced};
ghost use Rattle.thread_frames.specs.Views.{children_of, next_of, words_asked, done_of, held_by, join_words_of, newest};
ghost use Rattle.thread_frames.specs.declared.next.Next.TheVariants as nexts;
ghost use Rattle.dag_order.specs.declared.fault.FaultAt.{FaultAt};
ghost use Rattle.dag_order.specs.declared.thread_id.ThreadId.{ThreadId};
ghost use Rattle.list_changes.specs.Shown.{Stands};
ghost use Rattle.list_changes.specs.Seats.{KeepsSeats, LeavesSeat};
ghost use Rattle.thread_actions.specs.Acts.{ActsBy, AllocIsCharged, Always, GoesBack, GoesBackUnowned};

use crate::done::{alloc_done, dummy_done, fault_done, join_done, release_done};
use block_arena::Pool;
use containers::Boxed;
use deque_list::{DequeId, List};
use list_changes::{put_back, put_back_and_give_up};
use open_periods::PeriodTable;
use thread_frames::{ArenaFull, Thread};

/// Does an Alloc, which takes `charge` words of the quota.
///
/// # Errors
///
/// The thread comes back with [`ArenaFull`], exactly where its words do not fit beside those that are out. Nothing is changed.
pub fn alloc(
    list: &mut List<Boxed<Thread>>,
    table: &mut PeriodTable,
    pool: &mut Pool,
    worker: usize,
    deque: DequeId,
    top: Boxed<Thread>,
    charge: u32,
) -> Result<(), (Boxed<Thread>, ArenaFull)>
    requires placed { IsPlaced top }
    requires next { IsAlloc (next_of top) }
    requires count { done_of top < GREATEST_COUNT }
    requires stands { (items : AnyList Thread) × Stands list.old worker deque items }
    requires room { 1 ≤ lane_room list.old deque }
    requires table { HasRoom table.old worker }
    requires fits { (p : Period) → period_at table.old worker ≡ Some p → p.used + charge ≤ GREATEST_QUOTA }
    ensures full { IsErr result ↔ (pool.old.capacity < pool.old.live + words_asked (next_of top)) }
    ensures refused { IfErr result (λ e. (e.0 ≡ top) × (e.1 ≡ record { live = pool.old.live; asked = words_asked (next_of top) })) }
    ensures same_list { OnErr result (list.new ≡ list.old) }
    ensures same_table { OnErr result (table.new ≡ table.old) }
    ensures same_pool { OnErr result (pool.new ≡ pool.old) }
    ensures acts { OnOk result (ActsBy (nexts.Alloc (words_asked (next_of top))) worker deque top list.old table.old list.new table.new
        (AllocIsCharged charge)) }
    ensures back { OnOk result (GoesBack worker deque top list.old list.new) }
    ensures seats { OnOk result (KeepsSeats table.old table.new) }
    ensures pool { OnOk result (pool.new ≡ with_taken pool.old (words_asked (next_of top))) }
{
    let mut top = top;
    match alloc_done(&mut top, pool) {
        Ok(name) => {
            put_back(list, table, worker, deque, top, name, charge);
            Ok(())
        }
        Err(full) => Err((top, full)),
    }
}

/// Does a Release.
pub fn release(
    list: &mut List<Boxed<Thread>>,
    table: &mut PeriodTable,
    pool: &mut Pool,
    worker: usize,
    deque: DequeId,
    top: Boxed<Thread>,
)
    requires placed { IsPlaced top }
    requires next { IsRelease (next_of top) }
    requires count { done_of top < GREATEST_COUNT }
    requires live { words_asked (next_of top) ≤ pool.old.live }
    requires stands { (items : AnyList Thread) × Stands list.old worker deque items }
    requires room { 1 ≤ lane_room list.old deque }
    requires table { HasRoom table.old worker }
    requires fits { (p : Period) → period_at table.old worker ≡ Some p → p.used ≤ GREATEST_QUOTA }
    ensures acts { ActsBy (nexts.Release (words_asked (next_of top))) worker deque top list.old table.old list.new table.new Always }
    ensures back { GoesBack worker deque top list.old list.new }
    ensures seats { KeepsSeats table.old table.new }
    ensures pool { pool.new ≡ with_given pool.old (words_asked (next_of top)) }
{
    let mut top = top;
    let name = release_done(&mut top, pool);
    put_back(list, table, worker, deque, top, name, 0);
}

/// Does a Dummy, with which the period ends: the deque stays without an owner.
pub fn dummy(
    list: &mut List<Boxed<Thread>>,
    table: &mut PeriodTable,
    worker: usize,
    deque: DequeId,
    top: Boxed<Thread>,
)
    requires placed { IsPlaced top }
    requires next { IsDummy (next_of top) }
    requires count { done_of top < GREATEST_COUNT }
    requires stands { (items : AnyList Thread) × Stands list.old worker deque items }
    requires room { 1 ≤ lane_room list.old deque }
    requires table { HasRoom table.old worker }
    requires fits { (p : Period) → period_at table.old worker ≡ Some p → p.used ≤ GREATEST_QUOTA }
    ensures acts { ActsBy nexts.Dummy worker deque top list.old table.old list.new table.new Always }
    ensures back { GoesBackUnowned worker deque top list.old list.new }
    ensures seats { LeavesSeat worker table.old table.new }
{
    let mut top = top;
    let name = dummy_done(&mut top);
    put_back_and_give_up(list, table, worker, deque, top, name);
}

/// Does a fault: all blocks of the thread go back but its record block.
pub fn fault(
    list: &mut List<Boxed<Thread>>,
    table: &mut PeriodTable,
    pool: &mut Pool,
    worker: usize,
    deque: DequeId,
    top: Boxed<Thread>,
)
    requires placed { IsPlaced top }
    requires next { IsFault (next_of top) }
    requires count { done_of top < GREATEST_COUNT }
    requires live { held_by top ≤ pool.old.live }
    requires stands { (items : AnyList Thread) × Stands list.old worker deque items }
    requires room { 1 ≤ lane_room list.old deque }
    requires table { HasRoom table.old worker }
    requires fits { (p : Period) → period_at table.old worker ≡ Some p → p.used ≤ GREATEST_QUOTA }
    ensures acts { (at : FaultAt) → ActsBy (nexts.Fault at) worker deque top list.old table.old list.new table.new Always }
    ensures back { GoesBack worker deque top list.old list.new }
    ensures seats { KeepsSeats table.old table.new }
    ensures pool { pool.new ≡ with_given pool.old (held_by top) }
{
    let mut top = top;
    let name = fault_done(&mut top, pool);
    put_back(list, table, worker, deque, top, name, 0);
}

/// Does the Join of the newest open child, whose result was delivered; the answer is the words that it gives back.
pub fn join(
    list: &mut List<Boxed<Thread>>,
    table: &mut PeriodTable,
    pool: &mut Pool,
    worker: usize,
    deque: DequeId,
    top: Boxed<Thread>,
) -> u64
    requires placed { IsPlaced top }
    requires next { IsJoin (next_of top) }
    requires delivered { IsTrue (is_there (newest (children_of top))) }
    requires count { done_of top < GREATEST_COUNT }
    requires live { join_words_of top ≤ pool.old.live }
    requires stands { (items : AnyList Thread) × Stands list.old worker deque items }
    requires room { 1 ≤ lane_room list.old deque }
    requires table { HasRoom table.old worker }
    requires fits { (p : Period) → period_at table.old worker ≡ Some p → p.used ≤ GREATEST_QUOTA }
    ensures acts { (child : ThreadId) → ActsBy (nexts.Join child) worker deque top list.old table.old list.new table.new Always }
    ensures words { result ≡ join_words_of top }
    ensures back { GoesBack worker deque top list.old list.new }
    ensures seats { KeepsSeats table.old table.new }
    ensures pool { pool.new ≡ with_given pool.old (join_words_of top) }
{
    let mut top = top;
    let joined = join_done(&mut top);
    joined.rows.give_all(pool);
    put_back(list, table, worker, deque, top, joined.name, 0);
    joined.words
}
