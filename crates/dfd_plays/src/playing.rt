ghost use Rattle.std.specs.Prelude.{◌≡◌, IfOk, Some, List as AnyList};
ghost use Rattle.block_check.specs.Checked.{program_of};
ghost use Rattle.depth_first_run.specs.States.{Setting};
ghost use Rattle.deque_machine.specs.Moments.{Moment};
ghost use Rattle.deque_machine.specs.Runs.{Pair};
ghost use Rattle.trail_record.specs.Passed.Cores.{IsAt, end_of};
ghost use Rattle.run_report.specs.Shown.{shown_by_report};
ghost use Rattle.run_report.specs.Texts.{report_text};
ghost use Rattle.play_rules.specs.declared.ends.RunEnd.TheVariants.{Finished};
ghost use Rattle.par_ownership.specs.Ownership.{Ownership};
ghost use Rattle.par_tree.specs.View.{program_tree};
ghost use Rattle.dfd_plays.specs.Answer.{HasRanges};
ghost use Rattle.dfd_plays.specs.Sources.{SourceGives};
ghost use Rattle.dfd_plays.specs.Play.{PlayMakes, Reports};

use crate::answer::Answer;
use crate::finishing::report_answer;
use crate::playing_core::{lines_of, run_program, stop_answer};
use crate::refusal::refusal_answer;
use accepted_source::accept;
use block_check::Checked;
use command_line::Command;
use dag_order::Finish;
use run_report::Report;
use std::alloc::{AllocError, Global};
use trail_record::{Core, RunEnd};

/// What is reported of a run that has finished.
fn report_of(core: &Core, finish: Finish) -> Result<Report, AllocError>
    requires { end_of core.now ≡ Some (Finished finish) }
    ensures finish { IfOk result (λ report. report.finish ≡ finish) }
    ensures reports { IfOk result (λ report. (c : Setting) (run : AnyList Pair) (m : Moment) → IsAt c core.now run m
        → Reports c run m (report_text (shown_by_report report))) }
{
    Ok(Report {
        lines: lines_of(core)?,
        finish,
        periods: core.periods(),
        ahead: core.ahead(),
        high: core.high(),
    })
}

/// Lets the workers of a command run a program, and reports the run.
fn play_program(alloc: Global, command: &Command, program: Checked) -> Result<Answer, AllocError>
    requires ranges { HasRanges command.now }
    requires owned { Ownership (program_tree (program_of program)) }
    ensures { IfOk result (λ answer. PlayMakes command.now (program_tree (program_of program)) answer.status answer.text.items) }
{
    let (core, end) = run_program(alloc, command, program)?;
    match end {
        RunEnd::Finished(finish) => report_answer(alloc, &report_of(&core, finish)?),
        RunEnd::Stopped(stop) => stop_answer(alloc, stop),
    }
}

/// What workers make of the program whose text these bytes are, or why and where they are refused.
pub fn play(alloc: Global, command: &Command, bytes: &[u8]) -> Result<Answer, AllocError>
    requires { HasRanges command.now }
    ensures { IfOk result (λ answer. SourceGives (PlayMakes command.now) bytes.now answer.status answer.text.items) }
{
    match accept(alloc, bytes) {
        Ok(program) => play_program(alloc, command, program),
        Err(fail) => refusal_answer(alloc, fail),
    }
}
