//! Statements that put at most a list of statements before what is left.

ghost use Rattle.std.specs.Prelude.{◌≡◌, ◌≤◌, ◌+◌, ℕ, List, false};
ghost use Rattle.par_tree.specs.Tree.{Func, Expr, Body};
ghost use Rattle.node_table.specs.Names.{slot_names};
ghost use Rattle.node_table.specs.Shown.{expr_shown};
ghost use Rattle.node_table.specs.Table.{Table};
ghost use Rattle.node_table.specs.Reading.{IsExpr};
ghost use Rattle.node_table.specs.Codes.{code_shown};
ghost use Rattle.thread_state.specs.Passed.States.{Setting, with_number};
ghost use Rattle.thread_state.specs.Passed.Values.{value};
ghost use Rattle.thread_state.specs.Passed.Run.{print_number};
ghost use Rattle.thread_state.specs.Passed.Middle.{middle, step_with_number, step_if, step_branch, before_all};
ghost use Rattle.thread_stack.specs.Frames.{AreStatements};
ghost use Rattle.thread_stack.specs.Lists.{numbers_of};
ghost use Rattle.thread_stack.specs.Measure.{list_cost, node_cost};
ghost use Rattle.thread_run.specs.Costs.{done_cost};
ghost use Rattle.thread_run.specs.Dones.{Leads};

use crate::done::Done;
use crate::ready::Ready;
use dag_order::{FaultAt, FaultKind};
use node_table::CodeExpr;
use number_operators::is_true;
use thread_code::Code;
use thread_stack::ListOf;
use thread_state::ThreadState;

/// A fault at a line.
pub(crate) fn fault(kind: FaultKind, line: u32) -> Done
    ensures { result ≡ Done.Acts (Ready.Fault (record { kind = kind; line = line })) }
{
    Done::Acts(Ready::Fault(FaultAt { kind, line }))
}

/// `print value;`
pub(crate) fn print(state: &ThreadState, line: u32, expr: &CodeExpr) -> Done
    requires { state.now.faulted ≡ false }
    ensures meaning { (t : Table) (k : ℕ) (c : Setting) (g : Func) (e : Expr) → IsExpr (slot_names g) (expr_shown expr.now) e
        → Leads t k c g state.now result state.now (λ fs s. middle fs (with_number line (value s.store e) print_number s)) }
    ensures cost { (t : Table) → done_cost t result ≡ 0 }
{
    match state.evaluate(expr) {
        Ok(number) => Done::Prints(number),
        Err(kind) => fault(kind, line),
    }
}

/// `if cond { then } else { other }`
pub(crate) fn choose(
    state: &ThreadState,
    code: &Code,
    number: u32,
    line: u32,
    cond: &CodeExpr,
) -> Done
    requires { state.now.faulted ≡ false }
    ensures meaning { (k : ℕ) (c : Setting) (g : Func) (e : Expr) (a b : Body) → IsExpr (slot_names g) (expr_shown cond.now) e
        → AreStatements c.program (code_shown code.now) (slot_names g) (numbers_of (code_shown code.now) (ListOf.Then number)) a
        → AreStatements c.program (code_shown code.now) (slot_names g) (numbers_of (code_shown code.now) (ListOf.Other number)) b
        → Leads (code_shown code.now) k c g state.now result state.now
        (λ fs s. step_with_number line (value s.store e) (step_if a b) fs s) }
    ensures cost { done_cost (code_shown code.now) result
        ≤ list_cost (node_cost (code_shown code.now)) (numbers_of (code_shown code.now) (ListOf.Then number))
        + list_cost (node_cost (code_shown code.now)) (numbers_of (code_shown code.now) (ListOf.Other number)) }
{
    match state.evaluate(cond) {
        Ok(value) => take_arm(code, number, is_true(value)),
        Err(kind) => fault(kind, line),
    }
}

/// The arm of an `if` whose condition holds, or the other one.
fn take_arm(code: &Code, number: u32, holds: bool) -> Done
    ensures meaning { (k : ℕ) (c : Setting) (g : Func) (u : ThreadState) (a b : Body)
        → AreStatements c.program (code_shown code.now) (slot_names g) (numbers_of (code_shown code.now) (ListOf.Then number)) a
        → AreStatements c.program (code_shown code.now) (slot_names g) (numbers_of (code_shown code.now) (ListOf.Other number)) b
        → Leads (code_shown code.now) k c g u result u (λ fs s. step_branch holds a b fs s) }
    ensures cost { done_cost (code_shown code.now) result
        ≤ list_cost (node_cost (code_shown code.now)) (numbers_of (code_shown code.now) (ListOf.Then number))
        + list_cost (node_cost (code_shown code.now)) (numbers_of (code_shown code.now) (ListOf.Other number)) }
{
    if holds {
        do_list(code, ListOf::Then(number))
    } else {
        do_list(code, ListOf::Other(number))
    }
}

/// A list of statements comes next, where there are any.
fn do_list(code: &Code, list: ListOf) -> Done
    ensures meaning { (k : ℕ) (c : Setting) (g : Func) (u : ThreadState) (b : Body)
        → AreStatements c.program (code_shown code.now) (slot_names g) (numbers_of (code_shown code.now) list) b
        → Leads (code_shown code.now) k c g u result u (λ fs s. middle (before_all b fs) s) }
    ensures cost { done_cost (code_shown code.now) result
        ≤ list_cost (node_cost (code_shown code.now)) (numbers_of (code_shown code.now) list) }
{
    Done::Silent {
        first: code.frame_from(list, 0),
        next: None,
    }
}
