//! A worker with the end of its work.

use crate::crew::WorksToEnd;
use crate::gates::Gate;
use crate::loops::work;
use crate::works::Works;
use std::sync::Wait;
use std::time::Clock;

/// A worker, and how its work ended.
#[derive(Drop)]
pub struct Member<W, E> {
    /// The worker.
    pub worker: W,
    /// How its work ended; `None` before that.
    pub end: Option<E>,
}

impl<R: Wait + Clock, T, K, E: Drop, W: Works<T, K, E>, G: Gate> WorksToEnd<R, T, K, G>
    for Member<W, E> {
    ghost use Rattle.work_loop.specs.declared.member.Member.{Member as AnyMember};
    ghost use Rattle.work_loop.specs.Working.{HasWorked};

    ghost may_work = { λ table code member. W.may_try table code (AnyMember.worker member) };

    ghost has_worked = { λ table code before after. HasWorked (W.may_try table code) W.is_same W.has_ended before after };

    fn work_to_end(&mut self, rt: &R, table: &T, code: &K, gate: &G) {
        let end = work(rt, table, code, &mut self.worker, gate);
        self.end = Some(end);
    }
}
