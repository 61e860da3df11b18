//! Lists of statements and loops, one statement at a time.

ghost use Rattle.std.specs.Prelude.{◌≡◌, ◌+◌, ◌≤◌, IfOk};
ghost use Rattle.node_table.specs.Codes.{code_shown};
ghost use Rattle.depth_first_list.specs.QuotaWords.{quota_words};
ghost use Rattle.thread_stack.specs.Measure.{left_to_do, node_cost};
ghost use Rattle.thread_run.specs.Functions.{functions_of};
ghost use Rattle.thread_run.specs.Stepping.{IsKnownAt, IsMet, DoesRun, StepsRun, KeepsFunctions, RunsLess, frames_left};

use crate::calls::calls;
use crate::run::ThreadRun;
use crate::{Ready, statement};
use depth_first_list::Quota;
use std::alloc::{AllocError, Global};
use thread_code::Code;
use thread_stack::{Frame, ListOf};

impl ThreadRun {
    ghost use Rattle.thread_run.specs.Functions.{frames_of};

    /// The first statement of a list from a place on, which a thread that a fault ended skips with the others.
    ///
    /// # Errors
    ///
    /// There is not enough memory.
    pub(crate) fn statements(
        &mut self,
        alloc: Global,
        code: &Code,
        k: Quota,
        list: ListOf,
        next: usize,
    ) -> Result<Option<Ready>, AllocError>
        requires { IsKnownAt (code_shown code.now) (quota_words k) self.old (Frame.Statements list next) }
        ensures meaning { StepsRun (code_shown code.now) (quota_words k) self.old (Frame.Statements list next) result self.new }
        ensures functions { KeepsFunctions self.old (Frame.Statements list next) result self.new }
        ensures cost { RunsLess (code_shown code.now) self.old (Frame.Statements list next) result self.new }
    {
        if self.state.is_faulted() {
            return Ok(None);
        }
        let numbers = code.numbers(list);
        if next >= numbers.len() {
            return Ok(None);
        }
        let number = numbers[next];
        self.put_rest(list, next + 1, numbers.len())?;
        self.statement(alloc, code, k, number)
    }

    /// A loop that comes again, which a thread that a fault ended skips.
    ///
    /// # Errors
    ///
    /// There is not enough memory.
    pub(crate) fn again(
        &mut self,
        alloc: Global,
        code: &Code,
        k: Quota,
        number: u32,
    ) -> Result<Option<Ready>, AllocError>
        requires { IsKnownAt (code_shown code.now) (quota_words k) self.old (Frame.Again number) }
        ensures meaning { StepsRun (code_shown code.now) (quota_words k) self.old (Frame.Again number) result self.new }
        ensures functions { KeepsFunctions self.old (Frame.Again number) result self.new }
        ensures cost { RunsLess (code_shown code.now) self.old (Frame.Again number) result self.new }
    {
        if self.state.is_faulted() {
            return Ok(None);
        }
        self.statement(alloc, code, k, number)
    }

    /// The statement of a number, which comes next in a thread that no fault ended. What is left behind it is put already.
    ///
    /// # Errors
    ///
    /// There is not enough memory.
    fn statement(
        &mut self,
        alloc: Global,
        code: &Code,
        k: Quota,
        number: u32,
    ) -> Result<Option<Ready>, AllocError>
        requires { IsMet (code_shown code.now) (quota_words k) self.old number }
        ensures meaning { DoesRun (code_shown code.now) (quota_words k) self.old number result self.new }
        ensures functions { IfOk result (λ o. functions_of self.new.func (frames_left o (frames_of self.new))
            ≡ functions_of self.old.func (frames_of self.old)) }
        ensures cost { IfOk result (λ _. left_to_do (code_shown code.now) self.new.state.turns (frames_of self.new) + 1
            ≤ left_to_do (code_shown code.now) self.old.state.turns (frames_of self.old) + node_cost (code_shown code.now) number) }
    {
        let Some(node) = code.node(number) else {
            unreachable!();
        };
        if calls(node) {
            return self.begin_call(alloc, code, number, node);
        }
        match statement(&mut self.state, alloc, code, k, number, node) {
            Ok(done) => self.follow(done),
            Err(error) => Err(error),
        }
    }
}
