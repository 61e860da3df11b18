//! One statement.

ghost use Rattle.std.specs.Prelude.{◌≡◌, ◌≤◌, ◌+◌, ◌*◌, ℕ, List, Some, slice_get, IfOk};
ghost use Rattle.par_tree.specs.Tree.{Func, Stmt};
ghost use Rattle.node_table.specs.Names.{slot_names};
ghost use Rattle.node_table.specs.Shown.{node_shown};
ghost use Rattle.node_table.specs.Table as tables;
ghost use Rattle.node_table.specs.Codes.{code_shown};
ghost use Rattle.depth_first_list.specs.QuotaWords.{quota_words};
ghost use Rattle.thread_state.specs.Passed.States.{Setting};
ghost use Rattle.thread_state.specs.Passed.Middle.{step_statement};
ghost use Rattle.thread_stack.specs.Frames.{IsNode};
ghost use Rattle.thread_stack.specs.Lists.{kind_at};
ghost use Rattle.thread_run.specs.Called.{IsNoCall};
ghost use Rattle.thread_run.specs.Costs.{LeavesLess};
ghost use Rattle.thread_run.specs.Dones.{LeadsOrWants};
ghost use Rattle.thread_run.specs.Meanings.{IsMeant};

use crate::acts::{allocate, both, free};
use crate::changes::{Parts, put, repeat, set, split};
use crate::done::Done;
use crate::simple::{choose, print};
use depth_first_list::Quota;
use node_table::{Node, NodeKind};
use std::alloc::{AllocError, Global};
use thread_code::Code;
use thread_state::ThreadState;

/// One statement of a thread that no fault has ended: the node of this number, which is no call. A plain
/// statement comes here where flat code leaves it: at its fault, or where its list has no flat code.
///
/// # Errors
///
/// There is not enough memory. The thread is as it was.
pub fn statement(
    state: &mut ThreadState,
    alloc: Global,
    code: &Code,
    k: Quota,
    number: u32,
    node: &Node,
) -> Result<Done, AllocError>
    requires there { slice_get (tables.Table.nodes (code_shown code.now)) number ≡ Some (node_shown node.now) }
    requires meant { IsMeant (code_shown code.now) (quota_words k) number state.old }
    requires no_call { IsNoCall (kind_at (code_shown code.now) number) }
    ensures meaning { (c : Setting) (g : Func) (line : ℕ) (stmt : Stmt)
        → IsNode c.program (code_shown code.now) (slot_names g) number line stmt
        → LeadsOrWants (code_shown code.now) (quota_words k) c g state.old result state.new (step_statement c line stmt) }
    ensures cost { LeavesLess (code_shown code.now) number state.old.turns state.new.turns result }
{
    let line = node.line;
    match &node.kind {
        NodeKind::Let { name, value } => Ok(set(state, line, *name, value)),
        NodeKind::Assign { name, value } => Ok(set(state, line, *name, value)),
        NodeKind::Put {
            block,
            index,
            value,
        } => Ok(put(state, line, *block, index, value)),
        NodeKind::Alloc { name, size } => allocate(state, alloc, k, line, *name, size),
        NodeKind::Free { name } => Ok(free(state, *name)),
        NodeKind::If { cond, .. } => Ok(choose(state, code, number, line, cond)),
        NodeKind::While { cond, .. } => Ok(repeat(state, code, number, line, cond)),
        NodeKind::Call { .. } => unreachable!(),
        NodeKind::Print { value } => Ok(print(state, line, value)),
        NodeKind::Both { .. } => Ok(both(state, number, line)),
        NodeKind::Split {
            block,
            at,
            left,
            right,
            ..
        } => {
            let parts = Parts {
                block: *block,
                left: *left,
                right: *right,
            };
            split(state, alloc, code, number, line, parts, at)
        }
    }
}
