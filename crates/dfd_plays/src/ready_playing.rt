//! The play of a program with one ready list.

ghost use Rattle.std.specs.Prelude.{◌≡◌, IfOk, None, Some, [], List as AnyList};
ghost use Rattle.block_check.specs.Checked.{program_of};
ghost use Rattle.containers.specs.BoundedList.{entries};
ghost use Rattle.depth_first_run.specs.Run.{whole, lines_of};
ghost use Rattle.depth_first_run.specs.States.{Setting};
ghost use Rattle.deque_machine.specs.Moments.{Moment, opening};
ghost use Rattle.deque_machine.specs.Runs.{Pair};
ghost use Rattle.depth_first_list.specs.QuotaWords.{quota_words};
ghost use Rattle.node_table.specs.Codes.{code_shown};
ghost use Rattle.par_ownership.specs.Ownership.{Ownership};
ghost use Rattle.par_tree.specs.View.{program_tree};
ghost use Rattle.async_core.specs.Cores.{HasFinished, IsAt, end_of, terms_at};
ghost use Rattle.run_report.specs.Shown.{shown_by_report};
ghost use Rattle.run_report.specs.Texts.{report_text};
ghost use Rattle.play_rules.specs.declared.ends.RunEnd.TheVariants.{Finished};
ghost use Rattle.thread_state.specs.Settings.{IsSettingOf};
ghost use Rattle.dfd_plays.specs.Answer.{HasRanges};
ghost use Rattle.dfd_plays.specs.Async.{AsyncMakes, AsyncPlayed, async_terms};
ghost use Rattle.dfd_plays.specs.Play.{Reports, play_setting, seeded_words};
ghost use Rattle.dfd_plays.specs.Sources.{SourceGives};

use crate::answer::Answer;
use crate::finishing::report_answer;
use crate::pcg_choices::PcgChoices;
use crate::playing_core::{Start, start_of, stop_answer};
use crate::refusal::refusal_answer;
use accepted_source::accept;
use async_core::{Arena, AsyncCore, play_async};
use block_check::Checked;
use command_line::Command;
use dag_order::{Finish, Lines};
use play_rules::RunEnd;
use run_report::Report;
use std::alloc::{AllocError, Global};
use trail_record::OutputFail;

/// The run of a program by the workers of a command with one ready list, at its start.
fn begun(alloc: Global, command: &Command, program: Checked) -> Result<AsyncCore, AllocError>
    requires ranges { HasRanges command.now }
    requires owned { Ownership (program_tree (program_of program)) }
    ensures opening { IfOk result (λ core. IsAt (play_setting command.now (program_tree (program_of program))) core [] opening) }
    ensures going { IfOk result (λ core. end_of core ≡ None) }
    ensures terms { IfOk result (λ core. terms_at core ≡ async_terms command.now) }
{
    let Start { code, quota, pool } = start_of(alloc, command, program)?;
    let Some(arena) = Arena::of(pool) else {
        unreachable!();
    };
    AsyncCore::new(alloc, code, quota, command.p, arena, command.steps)
}

/// Lets the workers of a command run a program with one ready list, up to the end of the run.
fn run_async(
    alloc: Global,
    command: &Command,
    program: Checked,
) -> Result<(AsyncCore, RunEnd), AllocError>
    requires ranges { HasRanges command.now }
    requires owned { Ownership (program_tree (program_of program)) }
    ensures end { IfOk result (λ run. end_of run.0 ≡ Some run.1) }
    ensures plays { IfOk result (λ run. AsyncPlayed (play_setting command.now (program_tree (program_of program))) (async_terms command.now)
        (seeded_words command.now.seed) run.0 run.1) }
{
    let mut core = begun(alloc, command, program)?;
    let mut choices = PcgChoices::new(command.seed);
    let end = play_async(&mut core, &mut choices);
    Ok((core, end))
}

/// The lines of a run that has finished.
fn lines_of(core: &AsyncCore) -> Result<Lines, AllocError>
    requires { HasFinished core.now }
    ensures { (c : Setting) → IsSettingOf (code_shown core.now.code) (quota_words core.now.k) c
        → IfOk result (λ lines. entries lines ≡ lines_of (whole c).items) }
{
    match core.output() {
        Ok(lines) => Ok(lines),
        Err(OutputFail::NotFinished) => unreachable!(),
        Err(OutputFail::OutOfMemory) => Err(AllocError),
    }
}

/// What is reported of a run that has finished.
fn report_of(core: &AsyncCore, finish: Finish) -> Result<Report, AllocError>
    requires { end_of core.now ≡ Some (Finished finish) }
    ensures finish { IfOk result (λ report. report.finish ≡ finish) }
    ensures reports { IfOk result (λ report. (c : Setting) (run : AnyList Pair) (m : Moment) → IsAt c core.now run m
        → Reports c run m (report_text (shown_by_report report))) }
{
    Ok(Report {
        lines: lines_of(core)?,
        finish,
        periods: core.periods(),
        ahead: core.ahead(),
        high: core.high(),
    })
}

/// Lets the workers of a command run a program with one ready list, and reports the run.
fn async_program(alloc: Global, command: &Command, program: Checked) -> Result<Answer, AllocError>
    requires ranges { HasRanges command.now }
    requires owned { Ownership (program_tree (program_of program)) }
    ensures { IfOk result (λ answer. AsyncMakes command.now (program_tree (program_of program)) answer.status answer.text.items) }
{
    let (core, end) = run_async(alloc, command, program)?;
    match end {
        RunEnd::Finished(finish) => report_answer(alloc, &report_of(&core, finish)?),
        RunEnd::Stopped(stop) => stop_answer(alloc, stop),
    }
}

/// What workers with one ready list make of the program whose text these bytes are, or why and where they are refused.
pub fn play_ready(alloc: Global, command: &Command, bytes: &[u8]) -> Result<Answer, AllocError>
    requires { HasRanges command.now }
    ensures { IfOk result (λ answer. SourceGives (AsyncMakes command.now) bytes.now answer.status answer.text.items) }
{
    match accept(alloc, bytes) {
        Ok(program) => async_program(alloc, command, program),
        Err(fail) => refusal_answer(alloc, fail),
    }
}
