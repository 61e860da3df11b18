//! The top thread of a worker's deque is taken out for an event, and put back.

ghost use Rattle.std.specs.Prelude.{◌≡◌, ◌≤◌, ◌∷◌, ℕ, List as AnyList, Some, OnOk, IfOk, OnErr};
ghost use Rattle.deque_list.specs.DequeLists.{lane_room};
ghost use Rattle.deque_list.specs.Deques.{deque_ids};
ghost use Rattle.deque_list.specs.Ids.{IsLive};
ghost use Rattle.node_table.specs.Table.{Table};
ghost use Rattle.open_periods.specs.Periods.{Period as AnyPeriod};
ghost use Rattle.open_periods.specs.Tables.{period_at, deque_at};
ghost use Rattle.list_changes.specs.Shown.{Stands};
ghost use Rattle.scheduler_state.specs.Held.{held, held_under, IsReordered};
ghost use Rattle.scheduler_state.specs.Moments.{IsSound, terms_of};
ghost use Rattle.worker_step.specs.Keeping.{KeepsRoom};
ghost use Rattle.worker_step.specs.Memory.{HasMemory};
ghost use Rattle.worker_step.specs.Tops.{TakesTop};

use containers::Boxed;
use deque_list::DequeId;
use scheduler_state::Scheduler;
use std::alloc::{AllocError, Global};
use thread_actions::reserve_place;
use thread_frames::Thread;

/// Takes the memory that an event of a worker with this deque may need.
///
/// # Errors
///
/// There is not enough memory. Only memory has changed.
fn reserve(
    scheduler: &mut Scheduler,
    alloc: Global,
    worker: usize,
    deque: DequeId,
) -> Result<(), AllocError>
    requires live { IsLive (deque_ids scheduler.old.list.deques) deque }
    requires period { (p : AnyPeriod) × (period_at scheduler.old.table worker ≡ Some p) }
    ensures same { IsReordered (held scheduler.old) (held scheduler.new) }
    ensures periods { (w : ℕ) → period_at scheduler.new.table w ≡ period_at scheduler.old.table w }
    ensures keeps { KeepsRoom scheduler.old scheduler.new }
    ensures room { OnOk result (HasMemory 1 scheduler.new worker deque) }
{
    scheduler.list.reserve(deque)?;
    scheduler.table.reserve(worker)?;
    scheduler.moves.reserve()?;
    scheduler.waiting.reserve()?;
    scheduler.results.reserve()?;
    reserve_place(&mut scheduler.place, &mut scheduler.used_place, alloc)
}

/// Takes the memory that the event of a worker may need, and then the top thread out of its deque.
///
/// # Errors
///
/// There is not enough memory. Only memory has changed.
pub(crate) fn take_top(
    scheduler: &mut Scheduler,
    alloc: Global,
    worker: usize,
) -> Result<(DequeId, Boxed<Thread>), AllocError>
    requires sound { (t : Table) × (k : ℕ) × (limit : ℕ) × IsSound t k (terms_of scheduler.old limit) (held scheduler.old) }
    requires owner { (id : DequeId) × (deque_at scheduler.old.table worker ≡ Some id) }
    ensures takes { IfOk result (λ taken. TakesTop worker taken.0 taken.1 scheduler.old scheduler.new) }
    ensures same { OnErr result (IsReordered (held scheduler.old) (held scheduler.new)) }
    ensures keeps { KeepsRoom scheduler.old scheduler.new }
{
    let deque = match scheduler.table.seat(worker) {
        Some(seat) => seat.deque,
        None => unreachable!(),
    };
    reserve(scheduler, alloc, worker, deque)?;
    let Some(top) = scheduler.list.pop_top(deque) else {
        unreachable!();
    };
    Ok((deque, top))
}

/// A thread that was taken out goes back on top of its deque.
pub(crate) fn put_back(scheduler: &mut Scheduler, worker: usize, deque: DequeId, top: Boxed<Thread>)
    requires stands { (items : AnyList Thread) × Stands scheduler.old.list worker deque items }
    requires room { 1 ≤ lane_room scheduler.old.list deque }
    ensures held { (items : AnyList Thread) (stands : Stands scheduler.old.list worker deque items)
        → held scheduler.new ≡ held_under scheduler.old stands top }
    ensures keeps { KeepsRoom scheduler.old scheduler.new }
{
    // For the prover alone: clauses name this parameter.
    let _worker = worker;
    scheduler.list.push_top(deque, top);
}
