//! Statements that change the slots or the turns of a thread.

ghost use Rattle.std.specs.Prelude.{◌≡◌, ◌≤◌, ◌<◌, ◌+◌, ◌∷◌, [], ℕ, List, length, false, Result};
ghost use Rattle.par_tree.specs.Tree.{Func, Expr, Name, Body, step, while_stmt, done};
ghost use Rattle.node_table.specs.Names.{slot_names, IsSlot};
ghost use Rattle.node_table.specs.Shown.{expr_shown};
ghost use Rattle.node_table.specs.Table.{Table};
ghost use Rattle.node_table.specs.Reading.{IsExpr};
ghost use Rattle.node_table.specs.Codes.{code_shown};
ghost use Rattle.thread_state.specs.Passed.States.{Setting, with_number};
ghost use Rattle.thread_state.specs.Passed.Values.{value};
ghost use Rattle.thread_state.specs.Passed.Run.{set_integer, put_value};
ghost use Rattle.thread_state.specs.Passed.Middle.{middle, step_with_number, step_while, step_turn, step_split, before_all};
ghost use Rattle.thread_stack.specs.Frames.{AreStatements, IsSplitNode};
ghost use Rattle.thread_stack.specs.Lists.{numbers_of};
ghost use Rattle.thread_stack.specs.Measure.{list_cost, node_cost};
ghost use Rattle.thread_state.specs.Conditions.{CanCut};
ghost use Rattle.thread_state.specs.States.{own_row};
ghost use Rattle.thread_run.specs.Costs.{done_cost, CostsAtMost, CostsTurns};
ghost use Rattle.thread_run.specs.Dones.{Leads, LeadsOrWants, settled_done};

use crate::done::Done;
use crate::simple::fault;
use dag_order::FaultKind;
use node_table::CodeExpr;
use number_operators::is_true;
use std::alloc::{AllocError, Global};
use thread_code::Code;
use thread_stack::{Frame, ListOf};
use thread_state::{Stop, ThreadState};

/// The slots of a `split`: its block, and the two parts.
#[derive(Clone, Copy)]
pub(crate) struct Parts {
    pub(crate) block: u16,
    pub(crate) left: u16,
    pub(crate) right: u16,
}

/// A statement without frames is done, or is a fault at a line.
fn settle(settled: Result<(), FaultKind>, line: u32) -> Done
    ensures { result ≡ settled_done line settled }
{
    match settled {
        Ok(()) => Done::Silent {
            first: None,
            next: None,
        },
        Err(kind) => fault(kind, line),
    }
}

/// `let name = value;` and `name = value;`
pub(crate) fn set(state: &mut ThreadState, line: u32, slot: u16, expr: &CodeExpr) -> Done
    requires going { state.old.faulted ≡ false }
    requires within { slot < length (own_row state.old) }
    ensures meaning { (t : Table) (k : ℕ) (c : Setting) (g : Func) (x : Name) (e : Expr) → IsSlot (slot_names g) slot x
        → IsExpr (slot_names g) (expr_shown expr.now) e
        → Leads t k c g state.old result state.new (λ fs s. middle fs (with_number line (value s.store e) (set_integer x) s)) }
    ensures cost { (t : Table) → done_cost t result ≡ 0 }
    ensures turns { state.new.turns ≡ state.old.turns }
{
    let result = state.set(slot, expr);
    settle(result, line)
}

/// `block[index] = value;`
pub(crate) fn put(
    state: &mut ThreadState,
    line: u32,
    slot: u16,
    index: &CodeExpr,
    expr: &CodeExpr,
) -> Done
    requires going { state.old.faulted ≡ false }
    requires within { slot < length (own_row state.old) }
    ensures meaning { (t : Table) (k : ℕ) (c : Setting) (g : Func) (b : Name) (i e : Expr) → IsSlot (slot_names g) slot b
        → IsExpr (slot_names g) (expr_shown index.now) i → IsExpr (slot_names g) (expr_shown expr.now) e
        → Leads t k c g state.old result state.new (λ fs s. middle fs (with_number line (value s.store i) (put_value line b e) s)) }
    ensures cost { (t : Table) → done_cost t result ≡ 0 }
    ensures turns { state.new.turns ≡ state.old.turns }
{
    let result = state.put(slot, index, expr);
    settle(result, line)
}

/// `while cond { body }`
pub(crate) fn repeat(
    state: &mut ThreadState,
    code: &Code,
    number: u32,
    line: u32,
    cond: &CodeExpr,
) -> Done
    requires { state.old.faulted ≡ false }
    ensures meaning { (k : ℕ) (c : Setting) (g : Func) (e : Expr) (a : Body) → IsExpr (slot_names g) (expr_shown cond.now) e
        → AreStatements c.program (code_shown code.now) (slot_names g) (numbers_of (code_shown code.now) (ListOf.Round number)) a
        → AreStatements c.program (code_shown code.now) (slot_names g) (number ∷ []) (step line (while_stmt e a) done)
        → Leads (code_shown code.now) k c g state.old result state.new
        (λ fs s. step_with_number line (value s.store e) (step_while line e a) fs s) }
    ensures cost { CostsTurns (code_shown code.now) number state.old.turns state.new.turns result }
{
    match state.evaluate(cond) {
        Ok(value) => {
            if is_true(value) {
                go_round(state, code, number, line)
            } else {
                Done::Silent {
                    first: None,
                    next: None,
                }
            }
        }
        Err(kind) => fault(kind, line),
    }
}

/// A round of a loop, which comes again behind its body.
fn go_round(state: &mut ThreadState, code: &Code, number: u32, line: u32) -> Done
    requires { state.old.faulted ≡ false }
    ensures meaning { (k : ℕ) (c : Setting) (g : Func) (e : Expr) (a : Body)
        → AreStatements c.program (code_shown code.now) (slot_names g) (numbers_of (code_shown code.now) (ListOf.Round number)) a
        → AreStatements c.program (code_shown code.now) (slot_names g) (number ∷ []) (step line (while_stmt e a) done)
        → Leads (code_shown code.now) k c g state.old result state.new
        (λ fs s. step_turn s.turns line (before_all a (before_all (step line (while_stmt e a) done) fs)) fs s) }
    ensures cost { CostsTurns (code_shown code.now) number state.old.turns state.new.turns result }
{
    match state.turn() {
        Ok(()) => Done::Silent {
            first: code.frame_from(ListOf::Round(number), 0),
            next: Some(Frame::Again(number)),
        },
        Err(kind) => fault(kind, line),
    }
}

/// `split block at at into left, right { body }`
///
/// # Errors
///
/// There is not enough memory. The thread is as it was.
pub(crate) fn split(
    state: &mut ThreadState,
    alloc: Global,
    code: &Code,
    number: u32,
    line: u32,
    parts: Parts,
    at: &CodeExpr,
) -> Result<Done, AllocError>
    requires going { state.old.faulted ≡ false }
    requires can { CanCut (own_row state.old) parts.block parts.left parts.right }
    ensures meaning { (k : ℕ) (c : Setting) (g : Func) (b l r : Name) (e : Expr) (a : Body)
        → IsSlot (slot_names g) parts.block b → IsSlot (slot_names g) parts.left l → IsSlot (slot_names g) parts.right r
        → IsExpr (slot_names g) (expr_shown at.now) e → IsSplitNode (code_shown code.now) (slot_names g) number b l r
        → AreStatements c.program (code_shown code.now) (slot_names g) (numbers_of (code_shown code.now) (ListOf.Inside number)) a
        → LeadsOrWants (code_shown code.now) k c g state.old result state.new
        (λ fs s. step_with_number line (value s.store e) (step_split line b l r a) fs s) }
    ensures cost { CostsAtMost (code_shown code.now)
        (1 + list_cost (node_cost (code_shown code.now)) (numbers_of (code_shown code.now) (ListOf.Inside number))) result }
    ensures turns { state.new.turns ≡ state.old.turns }
{
    match state.evaluate(at) {
        Ok(at) => cut(state, alloc, code, number, line, parts, at),
        Err(kind) => Ok(fault(kind, line)),
    }
}

/// The block of a `split` is cut at a place, and its body comes next.
///
/// # Errors
///
/// There is not enough memory. The thread is as it was.
fn cut(
    state: &mut ThreadState,
    alloc: Global,
    code: &Code,
    number: u32,
    line: u32,
    parts: Parts,
    at: i64,
) -> Result<Done, AllocError>
    requires going { state.old.faulted ≡ false }
    requires can { CanCut (own_row state.old) parts.block parts.left parts.right }
    ensures meaning { (k : ℕ) (c : Setting) (g : Func) (b l r : Name) (a : Body)
        → IsSlot (slot_names g) parts.block b → IsSlot (slot_names g) parts.left l → IsSlot (slot_names g) parts.right r
        → IsSplitNode (code_shown code.now) (slot_names g) number b l r
        → AreStatements c.program (code_shown code.now) (slot_names g) (numbers_of (code_shown code.now) (ListOf.Inside number)) a
        → LeadsOrWants (code_shown code.now) k c g state.old result state.new (λ fs s. step_split line b l r a at fs s) }
    ensures cost { CostsAtMost (code_shown code.now)
        (1 + list_cost (node_cost (code_shown code.now)) (numbers_of (code_shown code.now) (ListOf.Inside number))) result }
    ensures turns { state.new.turns ≡ state.old.turns }
{
    match state.cut(alloc, parts.block, at, parts.left, parts.right) {
        Ok(()) => Ok(Done::Silent {
            first: code.frame_from(ListOf::Inside(number), 0),
            next: Some(Frame::Rejoins(number)),
        }),
        Err(Stop::Fault(kind)) => Ok(fault(kind, line)),
        Err(Stop::OutOfMemory) => Err(AllocError),
    }
}
