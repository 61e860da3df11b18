//! A bounded number of tries.

ghost use Rattle.std.specs.Prelude.{◌≡◌};
ghost use Rattle.hall_threads.specs.Spending.{IsNeverHeld, WorksSome};
ghost use Rattle.hall_threads.specs.Working.{IsSameWorker, MayWork};

use crate::answer::Answer;
use crate::tries::make_try;
use crate::worker::HallWorker;
use play_rules::RunEnd;
use scheduler_state::Choices;
use thread_frames::Code;
use work_loop::Gate;
use worker_entry::{EventRefused, Hall};

/// How a bounded number of tries ended.
#[derive(Clone, Copy, PartialEq, Eq, Debug)]
pub enum WorkSome {
    /// All tries were made. So many events were done: one for each try, unless the last one found a stop.
    Spent { done: u32 },
    /// After so many events a try was refused: another seat holds a slot that it needs, or there is nothing to steal.
    Refused { done: u32, why: EventRefused },
    /// The run has ended so.
    Over(RunEnd),
}

/// Lets a worker try at most `tries` times, without ever waiting: until a try is refused, or the run has ended. Before each try the worker passes
/// the gate. It picks its tries as [`work_loop::work`] does. If its seat has all places, a try is refused only if there is nothing to steal.
pub fn work_some<C: Choices, G: Gate>(
    hall: &Hall,
    code: &Code,
    worker: &mut HallWorker<C>,
    gate: &G,
    tries: u32,
) -> WorkSome
    requires { MayWork hall.now code.now worker.old }
    ensures again { MayWork hall.now code.now worker.new }
    ensures same { IsSameWorker worker.old.seat worker.new.seat }
    ensures some { WorksSome hall.now tries (C.coming worker.old.choices) (C.coming worker.new.choices) worker.old.seat worker.new.seat result }
    ensures lone { worker.old.seat.places ≡ hall.now.workers → IsNeverHeld result }
{
    let mut done = 0;
    'tries: for _ in 0..tries {
        gate.pass(worker.seat.worker());
        match make_try(hall, code, &mut worker.seat, &mut worker.choices) {
            Answer::Did(_) => done += 1,
            Answer::Found(_) => {}
            Answer::Over(end) => return WorkSome::Over(end),
            Answer::Refused(why) => return WorkSome::Refused { done, why },
        }
    }
    WorkSome::Spent { done }
}
