//! The run of a program from its beginning to its end.

ghost use Rattle.std.specs.Prelude.{◌≡◌, ◌≤◌, ℕ, [], length, MatchResult, IfOk};
ghost use Rattle.block_check.specs.Checked.{program_of};
ghost use Rattle.depth_first_list.specs.QuotaWords.{quota_words};
ghost use Rattle.par_tree.specs.View.{program_tree};
ghost use Rattle.depth_first_run.specs.States.{Setting, State};
ghost use Rattle.depth_first_run.specs.Run.{whole, list_of, first_fault, finish_of as finish_is};
ghost use Rattle.node_table.specs.Codes.{code_shown};
ghost use Rattle.node_table.specs.Table.{Table};
ghost use Rattle.thread_frames.specs.Passed.Settings.{IsSettingOf};
ghost use Rattle.thread_frames.specs.Points.{IsResult};
ghost use Rattle.thread_frames.specs.Views.{ended_label};
ghost use Rattle.serial_journal.specs.Journals.{KeepsUp};
ghost use Rattle.serial_journal.specs.Telling.{Tells};
ghost use Rattle.serial_meaning.specs.Settings.{setting_of};
ghost use Rattle.serial_meaning.specs.Stacks.{Stand};
ghost use Rattle.serial_meaning.specs.Writing.{Write};
ghost use Rattle.serial_meaning.specs.Runs.{TellsOrStops};

use crate::run::Run;
use block_check::Checked;
use dag_order::Finish;
use depth_first_list::Quota;
use frame_code::code_of;
use serial_journal::{Journal, Serial, SerialStop};
use std::alloc::{AllocError, Global};
use thread_frames::{Code, Ended};

/// Runs a program depth-first, with a quota of `k` words, up to so many actions.
///
/// A forked child runs to its end before its parent goes on. Before an allocation of more than `k` words the tree of
/// dummies is run. A fault ends the work of its thread, and of each thread that joins it.
///
/// The program is made code first, in time of at most its size times the names of a function. Calls and forks take none of the caller's
/// stack. Blocks lie in a pool that grows as the run needs, up to the peak of its live words.
///
/// # Errors
///
/// `StepsSpent` exactly where the run has more than `limit` actions, and `OutOfMemory` where memory is wanting.
pub fn depth_first(
    alloc: Global,
    program: &Checked,
    k: Quota,
    limit: u32,
) -> Result<Serial, SerialStop>
    ensures { TellsOrStops limit (State.items (whole (setting_of (program_tree (program_of program.now)) (quota_words k)))) result }
{
    // For the prover alone: the program keeps the rules.
    program.program();
    let code = code_of(alloc, program)?;
    run_all(alloc, &code, k, limit)
}

/// The run of the program that a table is of.
fn run_all(alloc: Global, code: &Code, k: Quota, limit: u32) -> Result<Serial, SerialStop>
    ensures { (c : Setting) → IsSettingOf (code_shown code.now) (quota_words k) c → TellsOrStops limit (State.items (whole c)) result }
{
    let mut run = Run::begin(alloc, code, limit)?;
    'actions: while run.done < limit {
        if let Some(root) = run.act(alloc, code, k)? {
            return Ok(close(alloc, run.journal, root)?);
        }
    }
    Err(SerialStop::StepsSpent)
}

/// What is told of a run that has ended, with the result of the root.
///
/// # Errors
///
/// There is not enough memory.
fn close(alloc: Global, journal: Journal, root: Ended) -> Result<Serial, AllocError>
    ensures { (limit : ℕ) (t : Table) (k : ℕ) (c : Setting) → IsSettingOf t k c → IsResult t k root → ended_label root ≡ []
        → KeepsUp limit (list_of c) journal
        → IfOk result (λ serial. Tells (State.items (whole c)) serial × (length (list_of c) ≤ limit)) }
{
    let output = root.lines(alloc)?;
    Ok(journal.close(finish_of(&root), output))
}

/// How the root ended.
fn finish_of(root: &Ended) -> Finish
    ensures { (t : Table) (k : ℕ) (c : Setting) → IsSettingOf t k c → IsResult t k root.now → ended_label root.now ≡ []
        → result ≡ finish_is (first_fault (State.items (whole c))) }
{
    match root.fault() {
        Some(fault) => Finish::Faulted(fault),
        None => Finish::Done,
    }
}
