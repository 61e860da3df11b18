ghost use Rattle.std.specs.Prelude.{◌≡◌, IfOk, Some, List as AnyList};
ghost use Rattle.block_check.specs.Checked.{program_of};
ghost use Rattle.containers.specs.BoundedList.{entries};
ghost use Rattle.depth_first_run.specs.States.{Setting};
ghost use Rattle.deque_machine.specs.Moments.{Moment};
ghost use Rattle.deque_machine.specs.Runs.{Pair};
ghost use Rattle.deque_machine.specs.Terms.{machine_of};
ghost use Rattle.trail_record.specs.Passed.Cores.{IsAt, end_of, terms_at};
ghost use Rattle.play_rules.specs.declared.ends.RunEnd.TheVariants.{Finished};
ghost use Rattle.trail_check.specs.Told.{events_in_trail};
ghost use Rattle.trail_check.specs.Verdicts.{AreNumbers};
ghost use Rattle.par_ownership.specs.Ownership.{Ownership};
ghost use Rattle.par_tree.specs.View.{program_tree};
ghost use Rattle.dfd_plays.specs.Answer.{HasRanges};
ghost use Rattle.dfd_plays.specs.Peak.{finish_status};
ghost use Rattle.dfd_plays.specs.Sources.{SourceGives};
ghost use Rattle.dfd_plays.specs.Trails.{Records, TrailMakes};

use crate::answer::Answer;
use crate::finishing::finish_status;
use crate::playing_core::{record_program, stop_answer};
use crate::refusal::refusal_answer;
use accepted_source::accept;
use block_check::Checked;
use command_line::Command;
use dag_order::Finish;
use std::alloc::{AllocError, Global};
use trail_meaning::{Events, Trail, TrailNumbers};
use trail_record::{Core, RunEnd};
use trail_text::trail_text;

/// The numbers that a run ended with.
fn numbers_of(core: &Core) -> TrailNumbers
    ensures { (c : Setting) (run : AnyList Pair) (m : Moment) → IsAt c core.now run m → AreNumbers (machine_of c (terms_at core.now)) run m result }
{
    TrailNumbers {
        periods: u64::from(core.periods()),
        ahead: u64::from(core.ahead()),
        high: core.high(),
    }
}

/// The trail of a run that has finished, of the program in these bytes.
fn trail_answer(
    alloc: Global,
    command: &Command,
    core: &Core,
    finish: Finish,
    bytes: &[u8],
    events: Events,
) -> Result<Answer, AllocError>
    requires { end_of core.now ≡ Some (Finished finish) }
    ensures status { IfOk result (λ answer. answer.status ≡ finish_status finish) }
    ensures text { IfOk result (λ answer. (c : Setting) (run : AnyList Pair) (m : Moment) → IsAt c core.now run m
        → entries events ≡ events_in_trail run → Records command.now bytes.now c run m answer.text.items) }
{
    let trail = Trail {
        k: command.k,
        p: command.p,
        arena: command.arena,
        steps: command.steps,
        deques: command.deques,
        source: Vec::from_slice(alloc, bytes)?,
        events,
        numbers: numbers_of(core),
    };
    let text = trail_text(alloc, &trail)?;
    Ok(Answer {
        status: finish_status(finish),
        text,
    })
}

/// Lets the workers of a command run the program of these bytes, and writes what they did.
fn trail_program(
    alloc: Global,
    command: &Command,
    program: Checked,
    bytes: &[u8],
) -> Result<Answer, AllocError>
    requires ranges { HasRanges command.now }
    requires owned { Ownership (program_tree (program_of program)) }
    ensures { IfOk result (λ answer. TrailMakes command.now bytes.now (program_tree (program_of program)) answer.status answer.text.items) }
{
    let (core, recorded) = record_program(alloc, command, program)?;
    match recorded.end {
        RunEnd::Finished(finish) => {
            trail_answer(alloc, command, &core, finish, bytes, recorded.events)
        }
        RunEnd::Stopped(stop) => stop_answer(alloc, stop),
    }
}

/// The trail of the play of the program whose text these bytes are, or why and where they are refused.
pub fn trail(alloc: Global, command: &Command, bytes: &[u8]) -> Result<Answer, AllocError>
    requires { HasRanges command.now }
    ensures { IfOk result (λ answer. SourceGives (TrailMakes command.now bytes.now) bytes.now answer.status answer.text.items) }
{
    match accept(alloc, bytes) {
        Ok(program) => trail_program(alloc, command, program, bytes),
        Err(fail) => refusal_answer(alloc, fail),
    }
}
