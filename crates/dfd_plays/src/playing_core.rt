//! The run of a program by the workers of a command.

ghost use Rattle.std.specs.Prelude.{◌≡◌, IfOk, None, Some, []};
ghost use Rattle.block_check.specs.Checked.{program_of};
ghost use Rattle.containers.specs.BoundedList.{entries};
ghost use Rattle.depth_first_run.specs.Run.{whole, lines_of};
ghost use Rattle.depth_first_run.specs.States.{Setting};
ghost use Rattle.deque_machine.specs.Moments.{opening};
ghost use Rattle.trail_record.specs.Passed.Cores.{HasFinished, IsAt, end_of, terms_at};
ghost use Rattle.trail_record.specs.Passed.Parts.{IsFresh};
ghost use Rattle.depth_first_list.specs.QuotaWords.{quota_words};
ghost use Rattle.node_table.specs.Codes.{code_shown};
ghost use Rattle.par_ownership.specs.Ownership.{Ownership};
ghost use Rattle.par_tree.specs.View.{program_tree};
ghost use Rattle.thread_state.specs.Settings.{IsSettingOf};
ghost use Rattle.dfd_plays.specs.Answer.{HasRanges};
ghost use Rattle.dfd_plays.specs.CorePlays.{Played, PlayedAs};
ghost use Rattle.dfd_plays.specs.Play.{play_setting, play_terms, seeded_words};
ghost use Rattle.dfd_plays.specs.Stops.{TellsStop};

use crate::answer::Answer;
use crate::messages::{arena_text, deques_text, spent_text};
use crate::pcg_choices::PcgChoices;
use crate::status::Status;
use block_arena::{Pool, PoolError};
use block_check::Checked;
use command_line::Command;
use dag_order::Lines;
use depth_first_list::Quota;
use frame_code::{Code, lower};
use play_rules::Stop;
use std::alloc::{AllocError, Global};
use trail_record::{Core, OutputFail, Recorded, RunEnd, record_play};

/// What a run of a program begins with: its table, the quota and the pool of the command.
pub struct Start {
    pub code: Code,
    pub quota: Quota,
    pub pool: Pool,
}

/// What the run of a program by the workers of a command begins with.
pub fn start_of(alloc: Global, command: &Command, program: Checked) -> Result<Start, AllocError>
    requires ranges { HasRanges command.now }
    requires owned { Ownership (program_tree (program_of program)) }
    ensures setting { IfOk result (λ start. IsSettingOf (code_shown start.code) (quota_words start.quota)
        (play_setting command.now (program_tree (program_of program)))) }
    ensures pool { IfOk result (λ start. (start.pool.live ≡ 0) × (start.pool.capacity ≡ command.now.arena)) }
{
    let Some(quota) = Quota::new(command.k) else {
        unreachable!();
    };
    let code = lower(alloc, program)?;
    let pool = match Pool::new(alloc, command.arena) {
        Ok(pool) => pool,
        Err(PoolError::OutOfMemory) => return Err(AllocError),
        // The arena of a command is whole pieces, and no more of them than there may be.
        Err(PoolError::NotWhole) => unreachable!(),
        Err(PoolError::TooLarge) => unreachable!(),
    };
    Ok(Start { code, quota, pool })
}

/// The run of a program by the workers of a command, at its start.
pub fn begun(alloc: Global, command: &Command, program: Checked) -> Result<Core, AllocError>
    requires ranges { HasRanges command.now }
    requires owned { Ownership (program_tree (program_of program)) }
    ensures opening { IfOk result (λ core. IsAt (play_setting command.now (program_tree (program_of program))) core [] opening) }
    ensures going { IfOk result (λ core. end_of core ≡ None) }
    ensures terms { IfOk result (λ core. terms_at core ≡ play_terms command.now) }
    ensures fresh { IfOk result IsFresh }
{
    let Start { code, quota, pool } = start_of(alloc, command, program)?;
    Core::new(
        alloc,
        code,
        quota,
        command.p,
        pool,
        command.steps,
        command.deques,
    )
}

/// Lets the workers of a command run a program up to the end of the run.
pub fn run_program(
    alloc: Global,
    command: &Command,
    program: Checked,
) -> Result<(Core, RunEnd), AllocError>
    requires ranges { HasRanges command.now }
    requires owned { Ownership (program_tree (program_of program)) }
    ensures end { IfOk result (λ run. end_of run.0 ≡ Some run.1) }
    ensures plays { IfOk result (λ run. Played (play_setting command.now (program_tree (program_of program))) (play_terms command.now)
        (seeded_words command.now.seed) run.0 run.1) }
{
    let mut core = begun(alloc, command, program)?;
    let mut choices = PcgChoices::new(command.seed);
    let end = trail_record::play(&mut core, &mut choices);
    Ok((core, end))
}

/// Lets the workers of a command run a program up to the end of the run, and records what they do.
pub fn record_program(
    alloc: Global,
    command: &Command,
    program: Checked,
) -> Result<(Core, Recorded), AllocError>
    requires ranges { HasRanges command.now }
    requires owned { Ownership (program_tree (program_of program)) }
    ensures end { IfOk result (λ run. end_of run.0 ≡ Some run.1.end) }
    ensures plays { IfOk result (λ run. PlayedAs (play_setting command.now (program_tree (program_of program))) (play_terms command.now)
        (seeded_words command.now.seed) run.0 run.1.end (entries run.1.events)) }
{
    let mut core = begun(alloc, command, program)?;
    let mut choices = PcgChoices::new(command.seed);
    let recorded = record_play(alloc, &mut core, &mut choices)?;
    Ok((core, recorded))
}

/// The lines of a run that has finished.
pub fn lines_of(core: &Core) -> Result<Lines, AllocError>
    requires { HasFinished core.now }
    ensures { (c : Setting) → IsSettingOf (code_shown core.now.code) (quota_words core.now.k) c
        → IfOk result (λ lines. entries lines ≡ lines_of (whole c).items) }
{
    match core.output() {
        Ok(lines) => Ok(lines),
        Err(OutputFail::NotFinished) => unreachable!(),
        Err(OutputFail::OutOfMemory) => Err(AllocError),
    }
}

/// The line of a run that was stopped.
pub fn stop_answer(alloc: Global, stop: Stop) -> Result<Answer, AllocError>
    ensures { IfOk result (λ answer. TellsStop stop answer.status answer.text.items) }
{
    let (status, text) = match stop {
        Stop::ArenaFull { live, asked } => (Status::ArenaFull, arena_text(alloc, live, asked)?),
        Stop::DequesFull { deques } => (Status::DequesFull, deques_text(alloc, deques)?),
        Stop::StepsSpent { limit } => (Status::StepsSpent, spent_text(alloc, limit)?),
        Stop::OutOfMemory => return Err(AllocError),
    };
    Ok(Answer { status, text })
}
