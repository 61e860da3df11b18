//! How a worker leaves its deque without an action.

ghost use Rattle.std.specs.Prelude.{◌≡◌, ◌≤◌, ℕ, Some, None, [], List as AnyList, IfOk};
ghost use Rattle.space_ledger.specs.BooksList.{books_spare};
ghost use Rattle.deque_list.specs.DequeLists.{lane_room};
ghost use Rattle.open_periods.specs.Periods.{Period};
ghost use Rattle.open_periods.specs.Tables.{period_at, deque_at};
ghost use Rattle.thread_map.specs.Kept.{kept_under};
ghost use Rattle.list_changes.specs.Shown.{Stands};
ghost use Rattle.scheduler_state.specs.declared.event.Event.TheVariants as events;
ghost use Rattle.scheduler_state.specs.Held.{held};
ghost use Rattle.scheduler_state.specs.Moments.{IsSound, CanGoOn, SameTerms, HasRun, terms_of};
ghost use Rattle.depth_first_run.specs.States.{Setting};
ghost use Rattle.open_periods.specs.Passed.Moments.{Moment};
ghost use Rattle.open_periods.specs.Passed.DequeMachineRuns.{Pair};
ghost use Rattle.node_table.specs.Table.{Table};
ghost use Rattle.scheduler_state.specs.Passed.Settings.{IsSettingOf};
ghost use Rattle.worker_step.specs.Memory.{HasMemory};
ghost use Rattle.worker_step.specs.Leaves.{LeavesDeque, LeavesList};
ghost use Rattle.worker_step.specs.Steps.{GivesUpOrStays};

use crate::tops::take_top;
use containers::Boxed;
use dag_order::ThreadId;
use deque_list::DequeId;
use scheduler_state::{Event, Scheduler};
use std::alloc::{AllocError, Global};
use thread_frames::Thread;

/// A worker gives its deque up: the top thread goes back, the deque stays without an owner, and the period ends.
pub(crate) fn give_up(
    scheduler: &mut Scheduler,
    worker: usize,
    deque: DequeId,
    top: Boxed<Thread>,
) -> Event
    requires stands { (items : AnyList Thread) × Stands scheduler.old.list worker deque items }
    requires memory { HasMemory 2 scheduler.old worker deque }
    requires period { (p : Period) × (period_at scheduler.old.table worker ≡ Some p) }
    ensures leaves { LeavesDeque worker deque top scheduler.old scheduler.new }
    ensures told { result ≡ events.GaveUp deque }
{
    list_changes::give_up(
        &mut scheduler.list,
        &mut scheduler.table,
        worker,
        deque,
        top,
    );
    Event::GaveUp(deque)
}

/// The top thread of a deque, which was alone there, waits for this child: its deque leaves the list, and the period ends.
pub(crate) fn suspend(
    scheduler: &mut Scheduler,
    worker: usize,
    deque: DequeId,
    top: Boxed<Thread>,
    child: ThreadId,
) -> Event
    requires stands { Stands scheduler.old.list worker deque [] }
    requires memory { HasMemory 2 scheduler.old worker deque }
    requires period { (p : Period) × (period_at scheduler.old.table worker ≡ Some p) }
    requires none { kept_under scheduler.old.waiting child ≡ None }
    ensures leaves { LeavesList worker deque top child scheduler.old scheduler.new }
    ensures told { result ≡ events.Suspended top.id }
{
    let id = top.get().id();
    list_changes::suspend(&mut scheduler.list, &mut scheduler.table, worker, deque);
    scheduler.waiting.put(child, top);
    Event::Suspended(id)
}

/// A worker gives its deque up, which it may at any time.
///
/// # Errors
///
/// There is not enough memory; then all stands where it stood.
pub fn give_up_deque(
    scheduler: &mut Scheduler,
    alloc: Global,
    worker: usize,
) -> Result<DequeId, AllocError>
    requires sound { (t : Table) × (k : ℕ) × (limit : ℕ) × IsSound t k (terms_of scheduler.old limit) (held scheduler.old) }
    requires owner { (id : DequeId) × (deque_at scheduler.old.table worker ≡ Some id) }
    ensures deque { IfOk result (λ id. deque_at scheduler.old.table worker ≡ Some id) }
    ensures sound { (t : Table) (k limit : ℕ) → IsSound t k (terms_of scheduler.old limit) (held scheduler.old)
        → IsSound t k (terms_of scheduler.new limit) (held scheduler.new) }
    ensures points { (t : Table) (k : ℕ) → CanGoOn t k (held scheduler.old) → CanGoOn t k (held scheduler.new) }
    ensures gives { (t : Table) (k limit : ℕ) → IsSound t k (terms_of scheduler.old limit) (held scheduler.old)
        → (c : Setting) → IsSettingOf t k c → (run : AnyList Pair) (m : Moment)
        → HasRun c (terms_of scheduler.old limit) (held scheduler.old) run m
        → GivesUpOrStays c (terms_of scheduler.old limit) (held scheduler.new) worker run m result }
    ensures terms { SameTerms scheduler.old scheduler.new }
    ensures spare { scheduler.new.list.spare ≡ scheduler.old.list.spare }
{
    let (deque, top) = take_top(scheduler, alloc, worker)?;
    give_up(scheduler, worker, deque, top);
    Ok(deque)
}
