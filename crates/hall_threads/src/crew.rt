//! All workers of a hall, each in a thread of its own.

ghost use Rattle.std.specs.Prelude.{ℕ, ◌<◌, length, slice_index_or, All};
ghost use Rattle.hall_threads.specs.Working.{MayWork, HasWorkedIn};
ghost use Rattle.hall_threads.specs.declared.worker.HallWorker.{HallWorker as AnyWorker};
ghost use Rattle.play_rules.specs.declared.ends.RunEnd.{RunEnd as AnyEnd};
ghost use Rattle.work_loop.specs.declared.member.Member.{Member as AnyMember};

use crate::worker::HallWorker;
use play_rules::RunEnd;
use scheduler_state::Choices;
use std::sync::Wait;
use std::thread::Threads;
use std::time::Clock;
use thread_frames::Code;
use work_loop::{Gate, Member, WorksToEnd, work_all};
use worker_entry::Hall;

/// Works a crew with a program. The table that it shares is any one here: what threads may share of the program, and of the table, is shown one
/// after the other, since each takes a search of its own.
fn work_program<R: Threads + Sync, T: Sync, M: WorksToEnd<R, T, Code, G> + Send, G: Sync>(
    rt: &R,
    table: &T,
    code: &Code,
    crew: &mut [M],
    gate: &G,
)
    requires { All (M.may_work table.now code.now) crew.old }
    ensures { (i : ℕ) (d : M) → i < length crew.old → M.has_worked table.now code.now (slice_index_or crew.old i d) (slice_index_or crew.new i d) }
{
    work_all(rt, table, code, crew, gate);
}

/// Works all members of a crew in a hall, each in a thread of its own, until the run has ended for each. Each member then has its end.
pub fn work_crew<R: Threads + Wait + Clock + Sync, C: Choices + Send, G: Gate + Sync>(
    rt: &R,
    hall: &Hall,
    code: &Code,
    crew: &mut [Member<HallWorker<C>, RunEnd>],
    gate: &G,
)
    requires { All (λ member. MayWork hall.now code.now (AnyMember.worker member)) crew.old }
    ensures { (i : ℕ) (d : AnyMember (AnyWorker C) AnyEnd) → i < length crew.old → HasWorkedIn hall.now code.now (slice_index_or crew.old i d) (slice_index_or crew.new i d) }
{
    work_program(rt, hall, code, crew, gate);
}
