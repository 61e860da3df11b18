//! Calls: where they end, and the end of `main`.

ghost use Rattle.std.specs.Prelude.{◌≡◌, ℕ, Ok, false};
ghost use Rattle.node_table.specs.Codes.{code_shown};
ghost use Rattle.node_table.specs.Shown.{ret_shown};
ghost use Rattle.thread_stack.specs.Lists.{kind_at};
ghost use Rattle.thread_state.specs.Calls.{return_line};
ghost use Rattle.thread_state.specs.States.{own_row, rows_of};
ghost use Rattle.thread_run.specs.Calling.{HasCallee, CanEndAt, IsThere, main_code, CanEndMainBy};
ghost use Rattle.thread_run.specs.Stepping.{StepsRun, KeepsFunctions, RunsLess};

use crate::Ready;
use crate::run::ThreadRun;
use dag_order::FaultAt;
use node_table::{CodeRet, NodeKind};
use thread_code::Code;
use thread_stack::Frame;

/// The line of a `return`; 0 where there is none.
fn line_of(ret: &Option<CodeRet>) -> u32
    ensures { result ≡ return_line (ret_shown ret.now) }
{
    match ret {
        Some(ret) => ret.line,
        None => 0,
    }
}

impl ThreadRun {
    /// The call of a node ends, and its caller goes on. The fault of its `return` is the answer.
    pub(crate) fn end_call(
        &mut self,
        code: &Code,
        number: u32,
        caller: Option<u32>,
    ) -> Option<Ready>
        requires there { HasCallee (code_shown code.now) (kind_at (code_shown code.now) number) }
        requires can { self.old.state.faulted ≡ false
            → CanEndAt (code_shown code.now) (rows_of self.old.state) (kind_at (code_shown code.now) number) }
        ensures meaning { (k : ℕ) → StepsRun (code_shown code.now) k self.old (Frame.Answers number caller) (Ok result) self.new }
        ensures functions { KeepsFunctions self.old (Frame.Answers number caller) (Ok result) self.new }
        ensures cost { RunsLess (code_shown code.now) self.old (Frame.Answers number caller) (Ok result) self.new }
    {
        let Some(node) = code.node(number) else {
            unreachable!();
        };
        let NodeKind::Call { target, func, args } = &node.kind else {
            unreachable!();
        };
        let Some(callee) = code.func(*func) else {
            unreachable!();
        };
        self.func = caller;
        match self
            .state
            .end_call(&callee.ret, &callee.params, args, *target)
        {
            Ok(()) => None,
            Err(kind) => Some(Ready::Fault(FaultAt {
                kind,
                line: line_of(&callee.ret),
            })),
        }
    }

    /// `main` ends. The fault of its `return` is the answer.
    pub(crate) fn end_main(&mut self, code: &Code) -> Option<Ready>
        requires there { IsThere (main_code (code_shown code.now)) }
        requires can { self.old.state.faulted ≡ false → CanEndMainBy (own_row self.old.state) (main_code (code_shown code.now)) }
        ensures meaning { (k : ℕ) → StepsRun (code_shown code.now) k self.old Frame.AnswersMain (Ok result) self.new }
        ensures functions { KeepsFunctions self.old Frame.AnswersMain (Ok result) self.new }
        ensures cost { RunsLess (code_shown code.now) self.old Frame.AnswersMain (Ok result) self.new }
    {
        let Some(main) = code.func(code.main()) else {
            unreachable!();
        };
        match self.state.end_main(&main.ret) {
            Ok(()) => None,
            Err(kind) => Some(Ready::Fault(FaultAt {
                kind,
                line: line_of(&main.ret),
            })),
        }
    }
}
