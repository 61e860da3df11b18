ghost use Rattle.std.specs.Prelude.{◌≡◌};
ghost use Rattle.thread_frames.specs.Views.{done_of};
ghost use Rattle.thread_frames.specs.declared.thread.Thread.{Thread as AnyThread};
ghost use Rattle.serial_meaning.specs.Doing.{kind_of_next};

use containers::Boxed;
use dag_order::{ActionId, Kind};
use thread_frames::{Next, Thread};

/// The name of the next action of a thread.
pub(crate) fn name_of(thread: &Boxed<Thread>) -> ActionId
    ensures by { result.by ≡ AnyThread.id thread.now }
    ensures index { result.index ≡ done_of thread.now }
{
    let thread = thread.get();
    ActionId {
        by: thread.id(),
        index: thread.done(),
    }
}

/// What an action does.
pub(crate) fn kind_of(next: Next) -> Kind
    ensures { result ≡ kind_of_next next }
{
    match next {
        Next::Fork => Kind::Fork,
        Next::Join { .. } => Kind::Join,
        Next::Alloc { .. } => Kind::Alloc,
        Next::Release { .. } => Kind::Release,
        Next::Dummy => Kind::Dummy,
        Next::End => Kind::End,
        Next::Fault(_) => Kind::Fault,
    }
}
