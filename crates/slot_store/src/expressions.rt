//! Expressions over slots.

ghost use Rattle.std.specs.Prelude.{◌≡◌, ◌<◌, List, Ok, MatchOption, ⊤, length};
ghost use Rattle.depth_first_run.specs.Passed.Tree.{Name, Expr};
ghost use Rattle.par_tree.specs.View.{chain_op_tree};
ghost use Rattle.node_table.specs.Names.{name_at};
ghost use Rattle.node_table.specs.Shown.{expr_shown, links_shown};
ghost use Rattle.node_table.specs.Reading.{IsExpr, links_read, FitsLinks};
ghost use Rattle.depth_first_run.specs.Stores.{Store, block_of};
ghost use Rattle.depth_first_run.specs.Values.{value, chained, operated, number_at};
ghost use Rattle.slot_store.specs.Shown.{slots_shown};
ghost use Rattle.slot_store.specs.Agreement.{ShowsStore};
ghost use Rattle.slot_store.specs.Outcomes.{outcome_shown};

use crate::outcome::Outcome;
use crate::slots::Slots;
use dag_order::FaultKind;
use node_table::{CodeExpr, CodeLink};
use number_operators::{compare, negate, operate};
use par_tree::ChainOp;

/// The number of an expression, or the fault that comes in its place.
///
/// Operands are evaluated from left to right, and a chain goes operator by operator.
///
/// # Errors
///
/// `Index` or `Divide`, exactly as the depth-first run says.
#[inline(always)]
pub fn evaluate(slots: &Slots, expr: &CodeExpr) -> Result<i64, FaultKind>
    ensures { (names : List Name) (store : Store) (e : Expr) → ShowsStore names (slots_shown slots.now) store
        → IsExpr names (expr_shown expr.now) e → result ≡ value store e }
{
    match outcome(slots, expr) {
        Outcome::Number(number) => Ok(number),
        Outcome::Index => Err(FaultKind::Index),
        Outcome::Divide => Err(FaultKind::Divide),
    }
}

/// The outcome of an expression. One whose operands are numbers and slots makes no further call.
#[cycle(evaluate)]
#[inline(never)]
fn outcome(slots: &Slots, expr: &CodeExpr) -> Outcome
    ensures { (names : List Name) (store : Store) (e : Expr) → ShowsStore names (slots_shown slots.now) store
        → IsExpr names (expr_shown expr.now) e → outcome_shown result ≡ value store e }
{
    match flat_outcome(slots, expr) {
        Some(outcome) => outcome,
        None => nested_outcome(slots, expr),
    }
}

/// The outcome of an expression whose operands are numbers and slots, which are read in place; None of any other.
#[inline(always)]
#[tactic(auto, unfolding(depth_first_run::specs::Values::value))]
fn flat_outcome(slots: &Slots, expr: &CodeExpr) -> Option<Outcome>
    ensures { (names : List Name) (store : Store) (e : Expr) → ShowsStore names (slots_shown slots.now) store
        → IsExpr names (expr_shown expr.now) e → MatchOption result ⊤ (λ outcome. outcome_shown outcome ≡ value store e) }
{
    match expr {
        CodeExpr::Num(number) => Some(Outcome::Number(*number)),
        CodeExpr::Var(slot) => Some(Outcome::Number(slots.integer(*slot))),
        CodeExpr::Get(slot, index) => {
            let index = leaf(slots, index)?;
            Some(element(slots, *slot, index))
        }
        CodeExpr::Len(slot) => Some(Outcome::Number(i64::from(slots.length(*slot)))),
        CodeExpr::Neg(inner) => {
            let number = leaf(slots, inner)?;
            Some(Outcome::Number(negate(number)))
        }
        CodeExpr::Chain { first, rest } => {
            let front = leaf(slots, first)?;
            flat_chain(slots, front, rest)
        }
        CodeExpr::Cmp { op, left, right } => {
            let left = leaf(slots, left)?;
            let right = leaf(slots, right)?;
            Some(Outcome::Number(compare(*op, left, right)))
        }
    }
}

/// The outcome of a chain whose operands are numbers and slots, from the number of its front; None of any other.
#[inline(always)]
#[tactic(auto, unfolding(depth_first_run::specs::Values::chained))]
fn flat_chain(slots: &Slots, front: i64, rest: &[CodeLink]) -> Option<Outcome>
    ensures { (names : List Name) (store : Store) → ShowsStore names (slots_shown slots.now) store
        → FitsLinks (length names) (links_shown rest.now)
        → MatchOption result ⊤ (λ outcome. outcome_shown outcome ≡ chained store (links_read names (links_shown rest.now)) front) }
{
    let mut number = front;
    for link in rest {
        let right = leaf(slots, &link.operand)?;
        match joined(link.op, number, right) {
            Outcome::Number(next) => {
                number = next;
            }
            fault => {
                return Some(fault);
            }
        }
    }
    Some(Outcome::Number(number))
}

/// The number of an expression that is a number or a slot; None of any other.
#[inline(always)]
#[tactic(auto, unfolding(depth_first_run::specs::Values::value))]
fn leaf(slots: &Slots, expr: &CodeExpr) -> Option<i64>
    ensures { (names : List Name) (store : Store) (e : Expr) → ShowsStore names (slots_shown slots.now) store
        → IsExpr names (expr_shown expr.now) e → MatchOption result ⊤ (λ number. value store e ≡ Ok number) }
{
    match expr {
        CodeExpr::Num(number) => Some(*number),
        CodeExpr::Var(slot) => Some(slots.integer(*slot)),
        _ => None,
    }
}

/// The outcome of an expression, operand by operand.
#[cycle(evaluate)]
#[inline(never)]
#[tactic(auto, unfolding(depth_first_run::specs::Values::value))]
fn nested_outcome(slots: &Slots, expr: &CodeExpr) -> Outcome
    ensures { (names : List Name) (store : Store) (e : Expr) → ShowsStore names (slots_shown slots.now) store
        → IsExpr names (expr_shown expr.now) e → outcome_shown result ≡ value store e }
{
    match expr {
        CodeExpr::Num(number) => Outcome::Number(*number),
        CodeExpr::Var(slot) => Outcome::Number(slots.integer(*slot)),
        CodeExpr::Get(slot, index) => match outcome(slots, index) {
            Outcome::Number(index) => element(slots, *slot, index),
            fault => fault,
        },
        CodeExpr::Len(slot) => Outcome::Number(i64::from(slots.length(*slot))),
        CodeExpr::Neg(inner) => match outcome(slots, inner) {
            Outcome::Number(number) => Outcome::Number(negate(number)),
            fault => fault,
        },
        CodeExpr::Chain { first, rest } => match outcome(slots, first) {
            Outcome::Number(front) => chain(slots, front, rest),
            fault => fault,
        },
        CodeExpr::Cmp { op, left, right } => match operand(slots, left) {
            Outcome::Number(left) => match operand(slots, right) {
                Outcome::Number(right) => Outcome::Number(compare(*op, left, right)),
                fault => fault,
            },
            fault => fault,
        },
    }
}

/// The outcome of an operand.
#[cycle(evaluate)]
#[inline(always)]
#[tactic(auto, unfolding(depth_first_run::specs::Values::value))]
fn operand(slots: &Slots, expr: &CodeExpr) -> Outcome
    ensures { (names : List Name) (store : Store) (e : Expr) → ShowsStore names (slots_shown slots.now) store
        → IsExpr names (expr_shown expr.now) e → outcome_shown result ≡ value store e }
{
    match leaf(slots, expr) {
        Some(number) => Outcome::Number(number),
        None => outcome(slots, expr),
    }
}

/// The outcome of a chain, from the number of its front.
#[cycle(evaluate)]
#[inline(always)]
fn chain(slots: &Slots, front: i64, rest: &[CodeLink]) -> Outcome
    ensures { (names : List Name) (store : Store) → ShowsStore names (slots_shown slots.now) store
        → FitsLinks (length names) (links_shown rest.now)
        → outcome_shown result ≡ chained store (links_read names (links_shown rest.now)) front }
{
    match flat_chain(slots, front, rest) {
        Some(outcome) => outcome,
        None => nested_chain(slots, front, rest),
    }
}

/// The outcome of a chain, from the number of its front, operand by operand.
#[cycle(evaluate)]
#[inline(never)]
#[tactic(auto, unfolding(depth_first_run::specs::Values::chained))]
fn nested_chain(slots: &Slots, front: i64, rest: &[CodeLink]) -> Outcome
    ensures { (names : List Name) (store : Store) → ShowsStore names (slots_shown slots.now) store
        → FitsLinks (length names) (links_shown rest.now)
        → outcome_shown result ≡ chained store (links_read names (links_shown rest.now)) front }
{
    let mut number = front;
    for link in rest {
        match operand(slots, &link.operand) {
            Outcome::Number(right) => match joined(link.op, number, right) {
                Outcome::Number(next) => {
                    number = next;
                }
                fault => {
                    return fault;
                }
            },
            fault => {
                return fault;
            }
        }
    }
    Outcome::Number(number)
}

/// What an operator comes to on its two operands.
#[inline(always)]
#[tactic(auto, unfolding(depth_first_run::specs::Values::operated))]
fn joined(op: ChainOp, left: i64, right: i64) -> Outcome
    ensures { outcome_shown result ≡ operated (chain_op_tree op) left right }
{
    match operate(op, left, right) {
        Ok(number) => Outcome::Number(number),
        Err(_) => Outcome::Divide,
    }
}

/// What the number at a place of the block of a slot comes to.
#[inline(always)]
fn element(slots: &Slots, slot: u16, index: i64) -> Outcome
    ensures { (names : List Name) (store : Store) → ShowsStore names (slots_shown slots.now) store → slot < length names
        → outcome_shown result ≡ number_at (block_of store.blocks (name_at names slot)) index }
{
    match slots.element(slot, index) {
        Ok(number) => Outcome::Number(number),
        Err(_) => Outcome::Index,
    }
}
