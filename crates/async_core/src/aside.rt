//! How the parent gets an entry of its own after a Fork.

ghost use Rattle.std.specs.Prelude.{◌≡◌, ◌<◌, ◌∷◌, [], ℕ, length};
ghost use Rattle.list_changes.specs.Shown.{Stands};
ghost use Rattle.deque_list.specs.declared.deque_id.DequeId.{DequeId};
ghost use Rattle.node_table.specs.Table.{Table};
ghost use Rattle.thread_frames.specs.declared.thread.Thread.{Thread};
ghost use Rattle.scheduler_state.specs.Held.{held};
ghost use Rattle.scheduler_state.specs.Moments.{IsSound, terms_of};
ghost use Rattle.async_core.specs.Aside.{SetsAside};

use list_changes::set_aside;
use scheduler_state::Scheduler;

/// If the worker's deque has two threads, as after a Fork, the lower one gets an entry of its own directly to the right, which nobody runs.
pub(crate) fn set_parent_aside(scheduler: &mut Scheduler, worker: usize)
    requires sound { (t : Table) × (k : ℕ) × (limit : ℕ) × IsSound t k (terms_of scheduler.old limit) (held scheduler.old) }
    requires room { (id : DequeId) (top bottom : Thread) → Stands scheduler.old.list worker id (top ∷ bottom ∷ [])
        → (scheduler.old.list.spare ≡ 1) × (length scheduler.old.list.deques < scheduler.old.list.most) }
    ensures { SetsAside worker scheduler.old scheduler.new }
{
    let Some(seat) = scheduler.table.seat(worker) else {
        return;
    };
    let deque = seat.deque;
    if scheduler.list.lane(deque).len() != 2 {
        return;
    }
    set_aside(&mut scheduler.list, deque);
}
