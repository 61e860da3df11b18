//! Calls: where they begin.

ghost use Rattle.std.specs.Prelude.{◌≡◌, ◌+◌, ◌≤◌, ◌++◌, ◌∷◌, ℕ, List, false, Some, IfOk, slice_get, vec_len, vec_capacity};
ghost use Rattle.node_table.specs.Table as tables;
ghost use Rattle.node_table.specs.Shown.{node_shown, kind_shown};
ghost use Rattle.node_table.specs.Codes.{code_shown};
ghost use Rattle.thread_stack.specs.Lists.{kind_at};
ghost use Rattle.thread_stack.specs.Frames.{frames_shown};
ghost use Rattle.thread_stack.specs.Measure.{left_to_do};
ghost use Rattle.thread_state.specs.States.{own_row};
ghost use Rattle.thread_run.specs.Calling.{is_call, CanCallAt, BeginsRun};
ghost use Rattle.thread_run.specs.Functions.{functions_of};
ghost use Rattle.thread_run.specs.Stepping.{frames_left};

use crate::Ready;
use crate::run::ThreadRun;
use dag_order::FaultAt;
use node_table::{Node, NodeKind};
use std::alloc::{AllocError, Global};
use thread_code::Code;
use thread_stack::{Frame, ListOf};
use thread_state::Stop;

/// Whether a node is a call.
pub(crate) fn calls(node: &Node) -> bool
    ensures { result ≡ is_call (Some (kind_shown node.now.kind)) }
{
    matches!(&node.kind, NodeKind::Call { .. })
}

impl ThreadRun {
    ghost use Rattle.thread_run.specs.Functions.{frames_of};

    /// The call of a node begins: its function comes next, and then the end of the call. A fault is the answer.
    ///
    /// # Errors
    ///
    /// There is not enough memory.
    pub(crate) fn begin_call(
        &mut self,
        alloc: Global,
        code: &Code,
        number: u32,
        node: &Node,
    ) -> Result<Option<Ready>, AllocError>
        requires there { slice_get (tables.Table.nodes (code_shown code.now)) number ≡ Some (node_shown node.now) }
        requires going { self.old.state.faulted ≡ false }
        requires can { CanCallAt (code_shown code.now) (own_row self.old.state) (kind_at (code_shown code.now) number) }
        ensures meaning { (k : ℕ) → BeginsRun (code_shown code.now) k self.old number result self.new }
        ensures functions { IfOk result (λ o. functions_of self.new.func (frames_left o (frames_of self.new))
            ≡ functions_of self.old.func (frames_of self.old)) }
        ensures cost { IfOk result (λ _. left_to_do (code_shown code.now) self.new.state.turns (frames_of self.new)
            ≤ left_to_do (code_shown code.now) self.old.state.turns (frames_of self.old)) }
        ensures told { self.new.told ≡ self.old.told }
    {
        let caller = self.func;
        let NodeKind::Call { func, args, .. } = &node.kind else {
            unreachable!();
        };
        let Some(callee) = code.func(*func) else {
            unreachable!();
        };
        self.frames.reserve(2)?;
        match self.state.call(alloc, callee.slots, &callee.params, args) {
            Ok(()) => {
                let body = code.frame_from(ListOf::Body(*func), 0);
                self.enter(body, *func, number, caller);
                Ok(None)
            }
            Err(Stop::Fault(kind)) => Ok(Some(Ready::Fault(FaultAt {
                kind,
                line: node.line,
            }))),
            Err(Stop::OutOfMemory) => Err(AllocError),
        }
    }

    /// The frames of a call: the statements of its function, and its end.
    fn enter(&mut self, body: Option<Frame>, func: u32, number: u32, caller: Option<u32>)
        requires { vec_len self.old.frames + 2 ≤ vec_capacity self.old.frames }
        ensures frames { frames_of self.new ≡ frames_shown body ++ (Frame.Answers number caller ∷ frames_of self.old) }
        ensures func { self.new.func ≡ Some func }
        ensures state { self.new.state ≡ self.old.state }
        ensures told { self.new.told ≡ self.old.told }
    {
        self.frames.push_reserved(Frame::Answers {
            node: number,
            caller,
        });
        if let Some(body) = body {
            self.frames.push_reserved(body);
        }
        self.func = Some(func);
    }
}
