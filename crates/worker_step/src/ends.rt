//! The End of a worker's top thread.

ghost use Rattle.std.specs.Prelude.{◌≡◌, ◌≤◌, ◌<◌, [], List, length};
ghost use Rattle.scheduler_state.specs.Passed.Points.{words_at_end};
ghost use Rattle.thread_frames.specs.Views.{label_of};
ghost use Rattle.thread_frames.specs.declared.next.Next.TheVariants as nexts;
ghost use Rattle.thread_actions.specs.Acts.{Always};
ghost use Rattle.worker_step.specs.Memory.{CanAct, MayAct};
ghost use Rattle.worker_step.specs.Acts.{Performs};
ghost use Rattle.list_changes.specs.Shown.{Stands};
ghost use Rattle.worker_step.specs.Ends.{EndsBy, LeavesBy};

use crate::results::give_below;
use containers::Boxed;
use dag_order::Placed;
use deque_list::DequeId;
use scheduler_state::Scheduler;
use thread_frames::{Ended, Thread};

/// Does the End of a thread, which is a move where the thread has a record block. Where its parent stands directly below, this runs next and
/// has the result at once. Else the result is kept for its Join; the parent runs next where it waits for this child, and else the worker
/// leaves.
pub(crate) fn end(
    scheduler: &mut Scheduler,
    worker: usize,
    deque: DequeId,
    top: Boxed<Thread>,
) -> bool
    requires can { CanAct scheduler.old worker deque top nexts.End }
    requires may { MayAct 0 scheduler.old worker deque top nexts.End }
    ensures { Performs nexts.End Always worker deque top scheduler.old scheduler.new result }
{
    let is_forked = !top.get().label().is_empty();
    let mut top = top;
    end_thread(scheduler, worker, deque, &mut top);
    scheduler.used_place = Some(top);
    is_forked
}

/// The thread ends, and leaves its place on top of the deque.
fn end_thread(scheduler: &mut Scheduler, worker: usize, deque: DequeId, top: &mut Boxed<Thread>)
    requires can { CanAct scheduler.old worker deque top.old nexts.End }
    requires may { MayAct 0 scheduler.old worker deque top.old nexts.End }
    ensures { EndsBy worker deque top.old scheduler.old scheduler.new }
{
    if scheduler.list.lane(deque).len() > 0 {
        end_above(scheduler, worker, deque, top);
    } else {
        end_alone(scheduler, worker, deque, top);
    }
}

/// The thread ends with its parent directly below, which has the result at once.
fn end_above(scheduler: &mut Scheduler, worker: usize, deque: DequeId, top: &mut Boxed<Thread>)
    requires can { CanAct scheduler.old worker deque top.old nexts.End }
    requires may { MayAct 0 scheduler.old worker deque top.old nexts.End }
    requires above { (items : List Thread) → Stands scheduler.old.list worker deque items → 0 < length items }
    ensures { EndsBy worker deque top.old scheduler.old scheduler.new }
{
    let ended = thread_actions::end_above(
        &scheduler.list,
        &mut scheduler.table,
        &mut scheduler.pool,
        worker,
        deque,
        top,
    );
    give_below(&mut scheduler.list, worker, deque, ended);
}

/// The thread, alone in its deque, leaves it, and its result is kept.
fn end_alone(scheduler: &mut Scheduler, worker: usize, deque: DequeId, top: &mut Boxed<Thread>)
    requires can { CanAct scheduler.old worker deque top.old nexts.End }
    requires may { MayAct 0 scheduler.old worker deque top.old nexts.End }
    requires alone { (items : List Thread) → Stands scheduler.old.list worker deque items → items ≡ [] }
    ensures { EndsBy worker deque top.old scheduler.old scheduler.new }
{
    let id = top.get().id();
    let ended = leave(scheduler, worker, deque, top);
    scheduler.results.put(id, ended);
}

/// The thread, alone in its deque, leaves it; the answer is its result.
fn leave(scheduler: &mut Scheduler, worker: usize, deque: DequeId, top: &mut Boxed<Thread>) -> Ended
    requires can { CanAct scheduler.old worker deque top.old nexts.End }
    requires gives { words_at_end (label_of top.old) ≤ scheduler.old.pool.live }
    requires alone { (items : List Thread) → Stands scheduler.old.list worker deque items → items ≡ [] }
    ensures { LeavesBy worker deque top.old scheduler.old scheduler.new result }
{
    match scheduler.waiting.take(top.get().id()) {
        Some(parent) => thread_actions::end_and_wake(
            &mut scheduler.list,
            &mut scheduler.table,
            &mut scheduler.pool,
            worker,
            deque,
            top,
            parent,
        ),
        None => thread_actions::end_and_leave(
            &mut scheduler.list,
            &mut scheduler.table,
            &mut scheduler.pool,
            worker,
            deque,
            top,
        ),
    }
}
