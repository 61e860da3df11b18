//! The run of a program with a thread for each worker.

ghost use Rattle.std.specs.Prelude.{◌≡◌, ◌+◌, ◌≤◌, IfOk, length};
ghost use Rattle.block_check.specs.Checked.{program_of};
ghost use Rattle.par_ownership.specs.Ownership.{Ownership};
ghost use Rattle.par_tree.specs.View.{program_tree};
ghost use Rattle.dfd_plays.specs.Answer.{HasRanges};
ghost use Rattle.dfd_plays.specs.Sources.{SourceGives};
ghost use Rattle.dfd_plays.specs.Threads.{RunMakes};
ghost use Rattle.dfd_run.specs.Seeds.{AreSeeded};

use accepted_source::accept;
use block_check::Checked;
use command_line::Command;
use dfd_plays::{Answer, PcgChoices, begun, refusal_answer, report_answer, stop_answer};
use hall_threads::{Ran, run_in_threads};
use std::alloc::{AllocError, Global};
use std::sync::Wait;
use std::thread::Threads;
use std::time::Clock;
use work_loop::Gate;

/// The choices of the workers from 1 on: each has a generator of its own, whose seed is that of the command and the number of the worker,
/// modulo 2^64.
fn choices_of_others(alloc: Global, command: &Command) -> Result<Vec<PcgChoices>, AllocError>
    requires { 1 ≤ command.now.p }
    ensures count { IfOk result (λ others. length others.items + 1 ≡ command.now.p) }
    ensures seeds { IfOk result (λ others. AreSeeded command.now.seed 1 others.items) }
{
    let mut others = Vec::new(alloc);
    'workers: for worker in 1..command.p {
        let seed = command.seed.wrapping_add(u64::from(worker));
        others.push(PcgChoices::new(seed))?;
    }
    Ok(others)
}

/// Lets the workers of a command run a program in threads, and reports the run.
fn run_program<R: Threads + Wait + Clock + Sync, G: Gate + Sync>(
    rt: &R,
    alloc: Global,
    command: &Command,
    program: Checked,
    gate: &G,
) -> Result<Answer, AllocError>
    requires ranges { HasRanges command.now }
    requires owned { Ownership (program_tree (program_of program)) }
    ensures { IfOk result (λ answer. RunMakes command.now (program_tree (program_of program)) answer.status answer.text.items) }
{
    let core = begun(alloc, command, program)?;
    let own = PcgChoices::new(command.seed);
    let others = choices_of_others(alloc, command)?;
    match run_in_threads(rt, alloc, core, own, others, gate)? {
        Ran::Finished(report) => report_answer(alloc, &report),
        Ran::Stopped(stop) => stop_answer(alloc, stop),
    }
}

/// What workers in threads make of the program whose text these bytes are, or why and where they are refused. Before each try a worker passes
/// the gate.
pub fn run<R: Threads + Wait + Clock + Sync, G: Gate + Sync>(
    rt: &R,
    alloc: Global,
    command: &Command,
    bytes: &[u8],
    gate: &G,
) -> Result<Answer, AllocError>
    requires { HasRanges command.now }
    ensures { IfOk result (λ answer. SourceGives (RunMakes command.now) bytes.now answer.status answer.text.items) }
{
    match accept(alloc, bytes) {
        Ok(program) => run_program(rt, alloc, command, program, gate),
        Err(fail) => refusal_answer(alloc, fail),
    }
}
