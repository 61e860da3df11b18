//! How the result of a thread comes at once to the parent below it.

ghost use Rattle.std.specs.Prelude.{◌∷◌, List as AnyList};
ghost use Rattle.list_changes.specs.Shown.{Stands};
ghost use Rattle.thread_frames.specs.Children.{IsAwaited};
ghost use Rattle.thread_frames.specs.Views.{children_of, label_of};
ghost use Rattle.worker_step.specs.Results.{ComesBelow};

use containers::Boxed;
use deque_list::{DequeId, List};
use thread_actions::give;
use thread_frames::{Ended, Thread};

/// The result of a thread that ended comes at once to its parent, which is on top of the worker's deque without it.
pub(crate) fn give_below(
    list: &mut List<Boxed<Thread>>,
    worker: usize,
    deque: DequeId,
    ended: Ended,
)
    requires { (parent : Thread) × (below : AnyList Thread) × Stands list.old worker deque (parent ∷ below)
        × IsAwaited (label_of parent) ended (children_of parent) }
    ensures { (items : AnyList Thread) (stands : Stands list.old worker deque items) → ComesBelow worker deque ended list.old list.new items stands }
{
    // For the prover alone: clauses name this parameter.
    let _worker = worker;
    let Some(mut parent) = list.pop_top(deque) else {
        unreachable!();
    };
    give(&mut parent, ended);
    list.push_top(deque, parent);
}
