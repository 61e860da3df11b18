ghost use Rattle.std.specs.Prelude.{◌≡◌, ◌≤◌, IfOk, Some, List as AnyList, length};
ghost use Rattle.block_check.specs.Checked.{program_of};
ghost use Rattle.depth_first_run.specs.States.{Setting};
ghost use Rattle.deque_machine.specs.Moments.{Moment};
ghost use Rattle.deque_machine.specs.Runs.{Pair};
ghost use Rattle.trail_record.specs.Passed.Cores.{IsAt, end_of};
ghost use Rattle.play_rules.specs.declared.ends.RunEnd.TheVariants.{Finished};
ghost use Rattle.par_ownership.specs.Ownership.{Ownership};
ghost use Rattle.par_tree.specs.View.{program_tree};
ghost use Rattle.dfd_plays.specs.Answer.{HasRanges};
ghost use Rattle.dfd_plays.specs.Sources.{SourceGives};
ghost use Rattle.dfd_plays.specs.Make.{MakeMakes, Summarizes, sum_of};
ghost use Rattle.dfd_plays.specs.Peak.{finish_status};

use crate::answer::Answer;
use crate::finishing::finish_status;
use crate::playing_core::{lines_of, run_program, stop_answer};
use crate::refusal::refusal_answer;
use accepted_source::accept;
use block_check::Checked;
use command_line::Command;
use dag_order::Finish;
use language_limits::LONGEST_TEXT;
use run_report::{Summary, summary_text};
use std::alloc::{AllocError, Global};
use trail_record::{Core, RunEnd};

/// The sum of numbers, which wraps at 64 bits.
fn wrapping_sum(numbers: &[i64]) -> i64
    ensures { result ≡ sum_of numbers.now }
{
    let mut sum = 0i64;
    'numbers: for number in numbers {
        sum = sum.wrapping_add(*number);
    }
    sum
}

/// The summary of a run that has finished, of a program in so many bytes.
fn summary_answer(
    alloc: Global,
    core: &Core,
    finish: Finish,
    bytes: u32,
) -> Result<Answer, AllocError>
    requires { end_of core.now ≡ Some (Finished finish) }
    ensures status { IfOk result (λ answer. answer.status ≡ finish_status finish) }
    ensures text { IfOk result (λ answer. (c : Setting) (run : AnyList Pair) (m : Moment) → IsAt c core.now run m
        → Summarizes bytes c run m answer.text.items) }
{
    let lines = lines_of(core)?;
    let summary = Summary {
        bytes,
        lines: lines.len(),
        total: wrapping_sum(lines.as_slice()),
        actions: core.actions(),
        periods: core.periods(),
        ahead: core.ahead(),
        high: core.high(),
    };
    let text = summary_text(alloc, &summary)?;
    Ok(Answer {
        status: finish_status(finish),
        text,
    })
}

/// Lets the workers of a command run the program of these bytes, and sums the run up.
fn make_program(
    alloc: Global,
    command: &Command,
    program: Checked,
    bytes: &[u8],
) -> Result<Answer, AllocError>
    requires ranges { HasRanges command.now }
    requires owned { Ownership (program_tree (program_of program)) }
    requires short { length bytes.now ≤ LONGEST_TEXT }
    ensures { IfOk result (λ answer. MakeMakes command.now bytes.now (program_tree (program_of program)) answer.status answer.text.items) }
{
    let (core, end) = run_program(alloc, command, program)?;
    match end {
        RunEnd::Finished(finish) => summary_answer(alloc, &core, finish, bytes.len() as u32),
        RunEnd::Stopped(stop) => stop_answer(alloc, stop),
    }
}

/// What workers make of the program of a made source, in numbers alone.
pub fn make(alloc: Global, command: &Command, bytes: &[u8]) -> Result<Answer, AllocError>
    requires { HasRanges command.now }
    ensures { IfOk result (λ answer. SourceGives (MakeMakes command.now bytes.now) bytes.now answer.status answer.text.items) }
{
    match accept(alloc, bytes) {
        Ok(program) => make_program(alloc, command, program, bytes),
        Err(fail) => refusal_answer(alloc, fail),
    }
}
