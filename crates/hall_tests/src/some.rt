//! Bounded numbers of tries.

ghost use Rattle.hall_threads.specs.Passed.Seated.{IsIn, IsProgramOf};
ghost use Rattle.hall_threads.specs.Working.{MayWork};

use crate::halls::{Bounds, ample, core_of, entered, hall_of, worker_of};
use dag_order::Finish;
use frame_code::Code;
use hall_threads::{EventRefused, Hall, HallWorker, Seat, WorkSome, work_some};
use play_rules::{RunEnd, Stop};
use scheduler_state::ListChoices;
use std::alloc::Global;
use std::process::Abort;
use work_loop::FreeGate;

/// Two children, of which the first one is forked.
const TWO: &str = "fn main() { par { print 1; } and { print 2; } print 3; }";

/// How so many tries of a worker end.
fn tried(hall: &Hall, code: &Code, worker: &mut HallWorker<ListChoices>, tries: u32) -> WorkSome
    requires { MayWork hall.now code.now worker.old }
    ensures { MayWork hall.now code.now worker.new }
{
    work_some(hall, code, worker, &FreeGate, tries)
}

/// The hall of a text with one deque for two workers, its program, and its first seat.
fn narrow_hall(rt: &impl Abort, alloc: Global) -> (Hall, Code, Seat)
    ensures program { IsProgramOf result.0 result.1 }
    ensures here { IsIn result.0 result.2 }
{
    let core = core_of(
        rt,
        alloc,
        TWO,
        Bounds {
            most: 1,
            ..ample(2)
        },
    );
    let Ok(made) = Hall::new(alloc, core) else {
        panic!(rt; "no hall");
    };
    made
}

#[test]
fn tries_that_all_did_an_event_are_counted(rt: HostRuntime) {
    let (hall, code, seat) = hall_of(&rt, rt.alloc(), TWO, 1);
    let mut worker = worker_of(rt.alloc(), seat);
    let answer = tried(&hall, &code, &mut worker, 3);
    assert!(rt; answer == WorkSome::Spent { done: 3 }, "another answer");
    let end = tried(&hall, &code, &mut worker, 10);
    assert!(rt;
        end == WorkSome::Over(RunEnd::Finished(Finish::Done)),
        "another end"
    );
}

#[test]
fn a_refused_try_ends_the_call(rt: HostRuntime) {
    let (hall, code, seat) = hall_of(&rt, rt.alloc(), TWO, 2);
    let mut seat = seat;
    let second = entered(&rt, &hall, &mut seat);
    let mut first = worker_of(rt.alloc(), seat);
    let mut late = worker_of(rt.alloc(), second);
    let answer = tried(&hall, &code, &mut first, 1);
    assert!(rt; answer == WorkSome::Spent { done: 1 }, "another answer");
    let why = EventRefused::Nothing;
    let answer = tried(&hall, &code, &mut late, 5);
    assert!(rt;
        answer == WorkSome::Refused { done: 0, why },
        "another answer"
    );
}

/// The second worker may not make a second deque. It finds this stop, and keeps it by its next try.
#[test]
fn a_try_that_found_a_stop_did_no_event(rt: HostRuntime) {
    let (hall, code, seat) = narrow_hall(&rt, rt.alloc());
    let mut seat = seat;
    let second = entered(&rt, &hall, &mut seat);
    let mut first = worker_of(rt.alloc(), seat);
    let mut late = worker_of(rt.alloc(), second);
    let answer = tried(&hall, &code, &mut first, 2);
    assert!(rt; answer == WorkSome::Spent { done: 2 }, "another answer");
    let answer = tried(&hall, &code, &mut late, 1);
    assert!(rt; answer == WorkSome::Spent { done: 0 }, "another answer");
    let end = tried(&hall, &code, &mut late, 1);
    assert!(rt;
        end == WorkSome::Over(RunEnd::Stopped(Stop::DequesFull { deques: 1 })),
        "another end"
    );
}
