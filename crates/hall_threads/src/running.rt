//! A whole run.

ghost use Rattle.std.specs.Prelude.{◌≡◌, All, IfOk};
ghost use Rattle.std.specs.List.{AllZip};
ghost use Rattle.depth_first_run.specs.States.{Setting};
ghost use Rattle.worker_entry.specs.Passed.Cores.{terms_at};
ghost use Rattle.worker_entry.specs.Passed.Parts.{IsFresh};
ghost use Rattle.depth_first_list.specs.QuotaWords.{quota_words};
ghost use Rattle.hall_threads.specs.Closed.{HasWorked, IsClosedBy, IsLeftOf};
ghost use Rattle.hall_threads.specs.Crews.{HasItsEnd, IsFreshIn, seat_of};
ghost use Rattle.hall_threads.specs.Reports.{ComesTo};
ghost use Rattle.worker_entry.specs.Seated.{IsProgramOf};
ghost use Rattle.worker_entry.specs.declared.seat.Seat.{Seat as AnySeat};
ghost use Rattle.node_table.specs.Codes.{code_shown};
ghost use Rattle.scheduler_state.specs.Passed.Settings.{IsSettingOf};

use crate::crew::work_crew;
use crate::entering::{enter_all, member_of};
use crate::leaving::leave_all;
use crate::ran::Ran;
use crate::telling::ran_of;
use crate::worker::HallWorker;
use play_rules::RunEnd;
use scheduler_state::Choices;
use std::alloc::{AllocError, Global};
use std::sync::Wait;
use std::thread::Threads;
use std::time::Clock;
use thread_frames::Code;
use work_loop::{Gate, Member};
use worker_entry::{CloseRefused, Closing, Core, Hall};

/// Works a crew, each member in a thread of its own, until the run has ended for each.
fn work_to_end<R: Threads + Wait + Clock + Sync, C: Choices + Send + Drop, G: Gate + Sync>(
    rt: &R,
    hall: &Hall,
    code: &Code,
    crew: &mut Vec<Member<HallWorker<C>, RunEnd>>,
    gate: &G,
)
    requires program { IsProgramOf hall.now code.now }
    requires fresh { All (λ member. IsFreshIn hall.now (seat_of member)) crew.old.items }
    ensures { AllZip (HasWorked hall.now) crew.old.items crew.new.items }
{
    work_crew(rt, hall, code, crew, gate);
}

/// Closes a hall with the one member that is left.
fn close_by<C: Drop>(hall: Hall, last: Member<HallWorker<C>, RunEnd>) -> Result<Closing, AllocError>
    requires end { HasItsEnd hall last }
    requires all { (seat_of last).places ≡ hall.workers }
    ensures { IfOk result (λ closing. (seat : AnySeat) × IsClosedBy hall seat closing) }
{
    let Member { worker, .. } = last;
    let HallWorker { seat, .. } = worker;
    match hall.close(seat) {
        Ok(closing) => Ok(closing),
        Err((_, _, CloseRefused::OutOfMemory)) => Err(AllocError),
        Err((_, _, CloseRefused::StillIn { .. } | CloseRefused::NotOver)) => unreachable!(),
    }
}

/// Runs the program of a core that has done no step, with a thread for each worker, and gives what is left of the run.
fn close_run<R: Threads + Wait + Clock + Sync, C: Choices + Send + Drop, G: Gate + Sync>(
    rt: &R,
    alloc: Global,
    core: Core,
    own: C,
    others: Vec<C>,
    gate: &G,
) -> Result<Closing, AllocError>
    requires { IsFresh core }
    ensures { IfOk result (IsLeftOf core) }
{
    let (hall, code, seat) = Hall::new(alloc, core)?;
    let mut first = seat;
    let mut crew = Vec::new(alloc);
    enter_all(rt, &hall, &mut first, others, &mut crew)?;
    crew.push(member_of(first, own))?;
    work_to_end(rt, &hall, &code, &mut crew, gate);
    let Some(last) = crew.pop() else {
        unreachable!();
    };
    let last = leave_all(rt, &hall, last, crew)?;
    close_by(hall, last)
}

/// Runs the program of a core that has done no step, with a thread for each worker, and says what it comes to. A worker picks its victims by its
/// own choices: the first one by `own`, each further one by one of `others`, as many of which enter as the core has workers. Before each try a
/// worker passes the gate.
///
/// # Errors
///
/// There is not enough memory.
pub fn run_in_threads<R: Threads + Wait + Clock + Sync, C: Choices + Send + Drop, G: Gate + Sync>(
    rt: &R,
    alloc: Global,
    core: Core,
    own: C,
    others: Vec<C>,
    gate: &G,
) -> Result<Ran, AllocError>
    requires { IsFresh core }
    ensures { (c : Setting) → IsSettingOf (code_shown core.code) (quota_words core.k) c → IfOk result (ComesTo c (terms_at core)) }
{
    let closing = close_run(rt, alloc, core, own, others, gate)?;
    ran_of(alloc, &closing)
}
