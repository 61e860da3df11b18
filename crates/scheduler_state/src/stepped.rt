//! What a step answers.

ghost use Rattle.std.specs.Prelude.{Some, Ok};
ghost use Rattle.scheduler_state.specs.Told.{IsTold};

use crate::event::Event;
use dag_order::{ActionId, ThreadId};
use deque_list::DequeId;
use play_rules::RunEnd;

/// What a step did.
#[derive(Clone, Copy, PartialEq, Eq, Debug)]
pub enum Stepped {
    /// The worker was idle, stole a thread, and owns this deque from now on, in the period of this number.
    Stole { deque: DequeId, period: u32 },
    /// Its top thread did this action.
    Acted(ActionId),
    /// Its top thread, of this id, waits for a child, and the worker is idle.
    Suspended(ThreadId),
    /// It left this deque in the list without an owner, and is idle.
    GaveUp(DequeId),
    /// The worker is idle, and no thread in its reach is ready. Nothing changed.
    Nothing,
    /// The run has ended, or this step met a stop.
    Over(RunEnd),
}

/// Why a run has no output.
#[derive(Clone, Copy, PartialEq, Eq, Debug)]
pub enum OutputFail {
    /// The run has not finished.
    NotFinished,
    /// There was no memory for the lines.
    OutOfMemory,
}

/// What a step answers that did an event.
pub fn told(event: Event) -> Stepped
    ensures { IsTold result (Ok (Some event)) }
{
    match event {
        Event::Stole { deque, period } => Stepped::Stole { deque, period },
        Event::Acted(id) => Stepped::Acted(id),
        Event::Suspended(id) => Stepped::Suspended(id),
        Event::GaveUp(deque) => Stepped::GaveUp(deque),
    }
}
