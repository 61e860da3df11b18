//! What is told of a run whose hall is closed.

ghost use Rattle.std.specs.Prelude.{◌≡◌, ◌≢◌, ℕ, [], IfOk, OnErr, count_by, length, pos};
ghost use Rattle.containers.specs.BoundedList.{entries};
ghost use Rattle.depth_first_run.specs.Run.{whole, lines_of};
ghost use Rattle.depth_first_run.specs.States.{Setting, State};
ghost use Rattle.worker_entry.specs.Passed.Cores.{terms_at};
ghost use Rattle.worker_entry.specs.Passed.Core.{Core as AnyCore};
ghost use Rattle.depth_first_list.specs.QuotaWords.{quota_words};
ghost use Rattle.hall_threads.specs.Closed.{IsLeftOf};
ghost use Rattle.hall_threads.specs.Reports.{ComesTo, LacksMemory};
ghost use Rattle.hall_threads.specs.declared.ran.Ran.TheVariants.{Stopped as WasStopped};
ghost use Rattle.node_table.specs.Codes.{code_shown};
ghost use Rattle.node_table.specs.Table.{Table};
ghost use Rattle.play_rules.specs.declared.ends.RunEnd.TheVariants.{Finished as AFinish};
ghost use Rattle.play_rules.specs.declared.stop.Stop.TheVariants.{OutOfMemory as NoMemory};
ghost use Rattle.space_ledger.specs.BooksList.{books_list};
ghost use Rattle.space_ledger.specs.Counts.{is_ahead};
ghost use Rattle.space_ledger.specs.MovesList.{moves_list};
ghost use Rattle.space_ledger.specs.Sums.{highest};
ghost use Rattle.thread_frames.specs.Points.{IsResult};
ghost use Rattle.thread_frames.specs.Views.{ended_label};
ghost use Rattle.scheduler_state.specs.Passed.Settings.{IsSettingOf};

use crate::ran::Ran;
use dag_order::Finish;
use play_rules::{RunEnd, Stop};
use run_report::Report;
use space_ledger::{Books, Moves};
use std::alloc::{AllocError, Global};
use thread_frames::Ended;
use worker_entry::Closing;

/// A stop, as it is told. Only that there was not enough memory is told as an error.
fn stop_told(stop: Stop) -> Result<Ran, AllocError>
    ensures told { IfOk result (λ ran. (ran ≡ WasStopped stop) × (stop ≢ NoMemory)) }
    ensures cause { OnErr result (stop ≡ NoMemory) }
{
    match stop {
        Stop::OutOfMemory => Err(AllocError),
        Stop::ArenaFull { .. } | Stop::DequesFull { .. } | Stop::StepsSpent { .. } => {
            Ok(Ran::Stopped(stop))
        }
    }
}

/// The most words that were in use at once.
fn high_of(moves: &Moves) -> u64
    ensures { pos result ≡ highest (moves_list moves.now) }
{
    moves.high() as u64
}

/// The report of a run with this finish, this result of its root, these periods and these moves.
fn report_of(
    alloc: Global,
    finish: Finish,
    ended: &Ended,
    books: &Books,
    moves: &Moves,
) -> Result<Report, AllocError>
    ensures lines { (t : Table) (k : ℕ) → IsResult t k ended.now → ended_label ended.now ≡ [] → (c : Setting) → IsSettingOf t k c
        → IfOk result (λ report. entries report.lines ≡ lines_of (State.items (whole c))) }
    ensures finish { IfOk result (λ report. report.finish ≡ finish) }
    ensures periods { IfOk result (λ report. report.periods ≡ length (books_list books.now)) }
    ensures ahead { IfOk result (λ report. report.ahead ≡ count_by is_ahead (books_list books.now)) }
    ensures high { IfOk result (λ report. pos report.high ≡ highest (moves_list moves.now)) }
{
    Ok(Report {
        lines: ended.lines(alloc)?,
        finish,
        periods: books.periods(),
        ahead: books.ahead(),
        high: high_of(moves),
    })
}

/// The report of a run that has finished.
fn finish_told(alloc: Global, finish: Finish, closing: &Closing) -> Result<Ran, AllocError>
    requires left { (core : AnyCore) × IsLeftOf core closing.now }
    requires finished { closing.now.end ≡ AFinish finish }
    ensures { (core : AnyCore) → IsLeftOf core closing.now → (c : Setting) → IsSettingOf (code_shown core.code) (quota_words core.k) c
        → IfOk result (ComesTo c (terms_at core)) }
{
    let Some(ended) = &closing.root else {
        unreachable!();
    };
    let report = report_of(alloc, finish, ended, &closing.books, &closing.moves)?;
    Ok(Ran::Finished(report))
}

/// The report of a run that has finished, or the stop that it met. Want of memory is no stop here, but an error, and each other stop is one.
pub(crate) fn ran_of(alloc: Global, closing: &Closing) -> Result<Ran, AllocError>
    requires { (core : AnyCore) × IsLeftOf core closing.now }
    ensures comes { (core : AnyCore) → IsLeftOf core closing.now → (c : Setting) → IsSettingOf (code_shown core.code) (quota_words core.k) c
        → IfOk result (ComesTo c (terms_at core)) }
    ensures cause { OnErr result (LacksMemory closing.now.end) }
{
    match closing.end {
        RunEnd::Finished(finish) => finish_told(alloc, finish, closing),
        RunEnd::Stopped(stop) => stop_told(stop),
    }
}
