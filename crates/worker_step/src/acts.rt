//! The actions of a worker's top thread, counted and noted.

ghost use Rattle.std.specs.Prelude.{◌≡◌, ◌≤◌, ◌<◌, ◌+◌, ◌++◌, pos};
ghost use Rattle.language_limits.specs.declared.TheConstants.{GREATEST_COUNT};
ghost use Rattle.block_arena.specs.declared.size.TheConstants.{MOST_COUNTED};
ghost use Rattle.space_ledger.specs.MovesList.{moves_list, moves_spare};
ghost use Rattle.space_ledger.specs.Sums.{total_change};
ghost use Rattle.thread_frames.specs.Views.{done_of};
ghost use Rattle.thread_frames.specs.declared.next.Next.TheVariants as nexts;
ghost use Rattle.thread_actions.specs.Acts.{AllocIsCharged, ForkFits, Always, IsCharged};
ghost use Rattle.worker_step.specs.Memory.{CanAct, MayAct};
ghost use Rattle.worker_step.specs.Acts.{Acts, Performs, change, noted};

use crate::ends::end;
use containers::Boxed;
use dag_order::{ActionId, FaultAt, ThreadId};
use deque_list::DequeId;
use scheduler_state::Scheduler;
use space_ledger::{Moved, Moves};
use thread_frames::{Next, Thread};

/// Counts an action, and notes by how much it changed the words that are out, where it is a move.
fn count(moves: &mut Moves, done: &mut u32, name: ActionId, before: u64, after: u64, is_move: bool)
    requires room { 1 ≤ moves_spare moves.old }
    requires few { done.old < GREATEST_COUNT }
    requires sum { total_change (moves_list moves.old) ≡ pos before }
    requires after { after ≤ MOST_COUNTED }
    requires before { before ≤ MOST_COUNTED }
    ensures done { done.new ≡ done.old + 1 }
    ensures moves { moves_list moves.new ≡ moves_list moves.old ++ noted is_move name (change before after) }
{
    if is_move {
        moves.add(Moved {
            by: name,
            change: after as i64 - before as i64,
        });
    }
    *done += 1;
}

/// Does the next action of the top thread, which uses `charge` words of the quota where it is an Alloc. It is counted, and noted where it is
/// a move. The answer is its name.
pub(crate) fn act(
    scheduler: &mut Scheduler,
    worker: usize,
    deque: DequeId,
    top: Boxed<Thread>,
    next: Next,
    charge: u32,
) -> ActionId
    requires can { CanAct scheduler.old worker deque top next }
    requires counted { scheduler.old.done < GREATEST_COUNT }
    requires may { MayAct charge scheduler.old worker deque top next }
    ensures { Acts next (IsCharged charge next) worker deque top scheduler.old scheduler.new result }
{
    let name = thread_actions::name_of(&top);
    let before = scheduler.pool.live();
    let is_move = perform(scheduler, worker, deque, top, next, charge);
    let after = scheduler.pool.live();
    count(
        &mut scheduler.moves,
        &mut scheduler.done,
        name,
        before,
        after,
        is_move,
    );
    name
}

/// Does the next action of the top thread; the answer is whether it is a move.
fn perform(
    scheduler: &mut Scheduler,
    worker: usize,
    deque: DequeId,
    top: Boxed<Thread>,
    next: Next,
    charge: u32,
) -> bool
    requires can { CanAct scheduler.old worker deque top next }
    requires may { MayAct charge scheduler.old worker deque top next }
    ensures { Performs next (IsCharged charge next) worker deque top scheduler.old scheduler.new result }
{
    match next {
        Next::Fork => fork(scheduler, worker, deque, top),
        Next::Join { child } => join(scheduler, worker, deque, top, child),
        Next::Alloc { words } => allocate(scheduler, worker, deque, top, words, charge),
        Next::Release { words } => release(scheduler, worker, deque, top, words),
        Next::Dummy => dummy(scheduler, worker, deque, top),
        Next::Fault(at) => fault(scheduler, worker, deque, top, at),
        Next::End => end(scheduler, worker, deque, top),
    }
}

/// Does an Alloc, which uses `charge` words of the quota.
fn allocate(
    scheduler: &mut Scheduler,
    worker: usize,
    deque: DequeId,
    top: Boxed<Thread>,
    words: u32,
    charge: u32,
) -> bool
    requires can { CanAct scheduler.old worker deque top (nexts.Alloc words) }
    requires may { MayAct charge scheduler.old worker deque top (nexts.Alloc words) }
    ensures { Performs (nexts.Alloc words) (AllocIsCharged charge) worker deque top scheduler.old scheduler.new result }
{
    let Ok(()) = thread_actions::alloc(
        &mut scheduler.list,
        &mut scheduler.table,
        &mut scheduler.pool,
        worker,
        deque,
        top,
        charge,
    ) else {
        unreachable!();
    };
    true
}

/// Does a Fork.
fn fork(scheduler: &mut Scheduler, worker: usize, deque: DequeId, top: Boxed<Thread>) -> bool
    requires can { CanAct scheduler.old worker deque top nexts.Fork }
    requires may { MayAct 0 scheduler.old worker deque top nexts.Fork }
    ensures { Performs nexts.Fork ForkFits worker deque top scheduler.old scheduler.new result }
{
    let Some(place) = scheduler.place.take() else {
        unreachable!();
    };
    let Ok(()) = thread_actions::fork(
        &mut scheduler.list,
        &mut scheduler.table,
        &mut scheduler.pool,
        worker,
        deque,
        top,
        place,
    ) else {
        unreachable!();
    };
    true
}

/// Does a Release.
fn release(
    scheduler: &mut Scheduler,
    worker: usize,
    deque: DequeId,
    top: Boxed<Thread>,
    words: u32,
) -> bool
    requires can { CanAct scheduler.old worker deque top (nexts.Release words) }
    requires may { MayAct 0 scheduler.old worker deque top (nexts.Release words) }
    ensures { Performs (nexts.Release words) Always worker deque top scheduler.old scheduler.new result }
{
    thread_actions::release(
        &mut scheduler.list,
        &mut scheduler.table,
        &mut scheduler.pool,
        worker,
        deque,
        top,
    );
    true
}

/// Does a fault.
fn fault(
    scheduler: &mut Scheduler,
    worker: usize,
    deque: DequeId,
    top: Boxed<Thread>,
    at: FaultAt,
) -> bool
    requires can { CanAct scheduler.old worker deque top (nexts.Fault at) }
    requires may { MayAct 0 scheduler.old worker deque top (nexts.Fault at) }
    ensures { Performs (nexts.Fault at) Always worker deque top scheduler.old scheduler.new result }
{
    thread_actions::fault(
        &mut scheduler.list,
        &mut scheduler.table,
        &mut scheduler.pool,
        worker,
        deque,
        top,
    );
    true
}

/// Does a Dummy, with which the worker leaves its deque.
fn dummy(scheduler: &mut Scheduler, worker: usize, deque: DequeId, top: Boxed<Thread>) -> bool
    requires can { CanAct scheduler.old worker deque top nexts.Dummy }
    ensures { Performs nexts.Dummy Always worker deque top scheduler.old scheduler.new result }
{
    thread_actions::dummy(
        &mut scheduler.list,
        &mut scheduler.table,
        worker,
        deque,
        top,
    );
    false
}

/// Does the Join of the newest open child, whose result was delivered.
fn join(
    scheduler: &mut Scheduler,
    worker: usize,
    deque: DequeId,
    top: Boxed<Thread>,
    child: ThreadId,
) -> bool
    requires can { CanAct scheduler.old worker deque top (nexts.Join child) }
    requires may { MayAct 0 scheduler.old worker deque top (nexts.Join child) }
    ensures { Performs (nexts.Join child) Always worker deque top scheduler.old scheduler.new result }
{
    let words = thread_actions::join(
        &mut scheduler.list,
        &mut scheduler.table,
        &mut scheduler.pool,
        worker,
        deque,
        top,
    );
    words > 0
}
