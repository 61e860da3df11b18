//! Halls of whole programs, and the workers in them.

ghost use Rattle.std.specs.Prelude.{◌≡◌, IfOk};
ghost use Rattle.dfd_core.specs.Parts.{IsFresh};
ghost use Rattle.hall_threads.specs.Passed.Seated.{IsIn, IsProgramOf};

use accepted_source::accept;
use block_arena::Pool;
use depth_first_list::Quota;
use dfd_core::Core;
use frame_code::{Code, lower};
use hall_threads::{Hall, HallWorker, Seat};
use scheduler_state::ListChoices;
use std::alloc::{AllocError, Global};
use std::process::Abort;

/// What bounds a run: its quota, its workers, the words of its arena, its actions and its deques.
#[derive(Clone, Copy)]
pub(crate) struct Bounds {
    pub k: u32,
    pub workers: u32,
    pub arena: u32,
    pub limit: u32,
    pub most: u32,
}

/// Bounds that no small program meets, for so many workers.
pub(crate) fn ample(workers: u32) -> Bounds {
    Bounds {
        k: 16,
        workers,
        arena: 65_536,
        limit: 100_000,
        most: 1_024,
    }
}

/// The table of a text.
fn code_of(alloc: Global, text: &str) -> Result<Code, AllocError> {
    match accept(alloc, text.as_bytes()) {
        Ok(program) => lower(alloc, program),
        Err(_) => Err(AllocError),
    }
}

/// The core of a run of a text within these bounds, before its first step. Bounds that are out of their ranges, and a text that is no accepted
/// program, count as want of memory.
fn fresh_core(alloc: Global, text: &str, of: Bounds) -> Result<Core, AllocError>
    ensures { IfOk result IsFresh }
{
    if of.workers < 1 || 64 < of.workers || of.limit < 1 || 4_000_000 < of.limit {
        return Err(AllocError);
    }
    if of.most < 1 || 4_096 < of.most {
        return Err(AllocError);
    }
    let Some(k) = Quota::new(of.k) else {
        return Err(AllocError);
    };
    let code = code_of(alloc, text)?;
    let Ok(pool) = Pool::new(alloc, of.arena) else {
        return Err(AllocError);
    };
    Core::new(alloc, code, k, of.workers, pool, of.limit, of.most)
}

/// The core of a run of a text within these bounds, before its first step.
pub(crate) fn core_of(rt: &impl Abort, alloc: Global, text: &str, of: Bounds) -> Core
    ensures { IsFresh result }
{
    match fresh_core(alloc, text, of) {
        Ok(core) => core,
        Err(_) => panic!(rt; "no core"),
    }
}

/// The hall of a text within these bounds, its program, and its first seat.
pub(crate) fn hall_within(
    rt: &impl Abort,
    alloc: Global,
    text: &str,
    of: Bounds,
) -> (Hall, Code, Seat)
    ensures program { IsProgramOf result.0 result.1 }
    ensures here { IsIn result.0 result.2 }
{
    let core = core_of(rt, alloc, text, of);
    let Ok(made) = Hall::new(alloc, core) else {
        panic!(rt; "no hall");
    };
    made
}

/// The hall of a text for so many workers, its program, and its first seat.
pub(crate) fn hall_of(
    rt: &impl Abort,
    alloc: Global,
    text: &str,
    workers: u32,
) -> (Hall, Code, Seat)
    ensures program { IsProgramOf result.0 result.1 }
    ensures here { IsIn result.0 result.2 }
{
    hall_within(rt, alloc, text, ample(workers))
}

/// The seat of a worker that enters by another seat.
pub(crate) fn entered(rt: &impl Abort, hall: &Hall, by: &mut Seat) -> Seat
    requires { IsIn hall.now by.old }
    ensures by { IsIn hall.now by.new }
    ensures made { IsIn hall.now result }
{
    match hall.enter(by) {
        Ok(made) => made,
        Err(_) => panic!(rt; "nobody entered"),
    }
}

/// Choices that rob the first deque in reach.
pub(crate) fn first_choices(alloc: Global) -> ListChoices {
    ListChoices::new(Vec::new(alloc))
}

/// The worker of a seat, which robs the first deque in reach.
pub(crate) fn worker_of(alloc: Global, seat: Seat) -> HallWorker<ListChoices>
    ensures { result.seat ≡ seat }
{
    HallWorker {
        seat,
        choices: first_choices(alloc),
    }
}
