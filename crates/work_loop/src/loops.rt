//! The loop of one worker.

use crate::gates::Gate;
use crate::pause::Pause;
use crate::works::{Tried, Works};
use std::sync::Wait;
use std::time::Clock;

/// Works until the work has ended, and returns how. Before each try the worker passes the gate; after a try that did nothing it pauses, and
/// after one that runs on it lets others in.
pub fn work<R: Wait + Clock, T, K, E, W: Works<T, K, E>, G: Gate>(
    rt: &R,
    table: &T,
    code: &K,
    worker: &mut W,
    gate: &G,
) -> E
    requires { W.may_try table.now code.now worker.old }
    ensures again { W.may_try table.now code.now worker.new }
    ensures same { W.is_same worker.old worker.new }
    ensures ended { W.has_ended worker.new result }
{
    let mut pause = Pause::new();
    'tries: for _ in rt.forever() {
        gate.pass(worker.number());
        match worker.try_once(table, code) {
            Tried::Did => pause.end(),
            Tried::Runs => pause.let_others_in(),
            Tried::Waits => pause.wait_for_part(),
            Tried::Idles => pause.wait_for_work(rt),
            Tried::Ended(end) => return end,
        }
    }
    unreachable!()
}
