//! Runs of whole programs in a hall.

use crate::halls::{entered, hall_of, worker_of};
use dag_order::Finish;
use play_rules::RunEnd;
use work_loop::{FreeGate, work};

/// Two children, of which the first one is forked.
const TWO: &str = "fn main() { par { print 1; } and { print 2; } print 3; }";

#[test]
fn a_worker_finishes_alone(rt: HostRuntime) {
    let (hall, code, seat) = hall_of(&rt, rt.alloc(), TWO, 1);
    let mut worker = worker_of(rt.alloc(), seat);
    let end = work(&rt, &hall, &code, &mut worker, &FreeGate);
    assert!(rt; end == RunEnd::Finished(Finish::Done), "it did not finish");
}

#[test]
fn who_comes_late_is_told_the_end(rt: HostRuntime) {
    let (hall, code, first) = hall_of(&rt, rt.alloc(), TWO, 3);
    let mut first = first;
    let second = entered(&rt, &hall, &mut first);
    let mut early = worker_of(rt.alloc(), first);
    let mut late = worker_of(rt.alloc(), second);
    let end = work(&rt, &hall, &code, &mut early, &FreeGate);
    assert!(rt; end == RunEnd::Finished(Finish::Done), "it did not finish");
    let told = work(&rt, &hall, &code, &mut late, &FreeGate);
    assert!(rt; told == end, "it was told another end");
}
