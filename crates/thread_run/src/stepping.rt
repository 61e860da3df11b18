//! One step of a thread, by the frame that comes next.

ghost use Rattle.std.specs.Prelude.{IfOk};
ghost use Rattle.node_table.specs.Codes.{code_shown};
ghost use Rattle.depth_first_list.specs.QuotaWords.{quota_words};
ghost use Rattle.thread_run.specs.Stepping.{IsKnownAt, StepsRun, KeepsFunctions, KeepsCounts, RunsLess, ComesBy, KnownAgain};

use crate::run::ThreadRun;
use crate::{Ready, allocates, dummies, rejoins};
use depth_first_list::Quota;
use std::alloc::{AllocError, Global};
use thread_code::Code;
use thread_stack::Frame;

impl ThreadRun {
    /// One step from a frame that was taken off, which leads each thread with this code to its next point, or before its next action.
    ///
    /// # Errors
    ///
    /// There is not enough memory.
    pub(crate) fn go_on(
        &mut self,
        alloc: Global,
        code: &Code,
        k: Quota,
        frame: Frame,
    ) -> Result<Option<Ready>, AllocError>
        requires known { IsKnownAt (code_shown code.now) (quota_words k) self.old frame }
        ensures meaning { StepsRun (code_shown code.now) (quota_words k) self.old frame result self.new }
        ensures comes { ComesBy (code_shown code.now) (quota_words k) self.old frame result self.new }
        ensures known { IfOk result (λ o. KnownAgain (code_shown code.now) (quota_words k) self.new o) }
        ensures counts { KeepsCounts self.old.state self.new.state }
        ensures functions { KeepsFunctions self.old frame result self.new }
        ensures cost { RunsLess (code_shown code.now) self.old frame result self.new }
    {
        match frame {
            Frame::Statements { list, next } => self.statements(alloc, code, k, list, next),
            Frame::Again(number) => self.again(alloc, code, k, number),
            Frame::Tree(tree) => Ok(Some(dummies(tree))),
            Frame::Answers { node, caller } => Ok(self.end_call(code, node, caller)),
            Frame::Rejoins(number) => self.rejoin(code, k, number),
            Frame::AnswersMain => Ok(self.end_main(code)),
            Frame::Allocates { slot, len } => self.allocate(alloc, code, k, slot, len),
            Frame::Joins(branch) => Ok(Some(Ready::Join(branch))),
        }
    }

    /// The end of a `split`.
    ///
    /// # Errors
    ///
    /// There is not enough memory.
    fn rejoin(&mut self, code: &Code, k: Quota, number: u32) -> Result<Option<Ready>, AllocError>
        requires known { IsKnownAt (code_shown code.now) (quota_words k) self.old (Frame.Rejoins number) }
        ensures meaning { StepsRun (code_shown code.now) (quota_words k) self.old (Frame.Rejoins number) result self.new }
        ensures functions { KeepsFunctions self.old (Frame.Rejoins number) result self.new }
        ensures cost { RunsLess (code_shown code.now) self.old (Frame.Rejoins number) result self.new }
    {
        match rejoins(&mut self.state, code, number) {
            Ok(()) => Ok(None),
            Err(error) => Err(error),
        }
    }

    /// An allocation behind its dummies.
    ///
    /// # Errors
    ///
    /// There is not enough memory.
    fn allocate(
        &self,
        alloc: Global,
        code: &Code,
        k: Quota,
        slot: u16,
        len: u32,
    ) -> Result<Option<Ready>, AllocError>
        requires { IsKnownAt (code_shown code.now) (quota_words k) self.now (Frame.Allocates slot len) }
        ensures meaning { StepsRun (code_shown code.now) (quota_words k) self.now (Frame.Allocates slot len) result self.now }
        ensures functions { KeepsFunctions self.now (Frame.Allocates slot len) result self.now }
        ensures cost { RunsLess (code_shown code.now) self.now (Frame.Allocates slot len) result self.now }
    {
        match allocates(&self.state, alloc, slot, len) {
            Ok(ready) => Ok(Some(ready)),
            Err(error) => Err(error),
        }
    }
}
