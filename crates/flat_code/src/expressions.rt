//! The acts of expressions and of conditions.

ghost use Rattle.std.specs.Prelude.{◌≡◌, [], ◌∷◌, ◌++◌, IfOk};
ghost use Rattle.node_table.specs.Shown.{expr_shown, links_shown};
ghost use Rattle.flat_expressions.specs.Codes.{operand_of, slot_behind, code_of, links_code, operand_code, before_test, test_of, HasRoom, HaveRoom};
ghost use Rattle.flat_expressions.specs.Shown.{operand_shown, act_shown, acts_shown};
ghost use Rattle.flat_code.specs.Shown.{test_shown};
ghost use Rattle.flat_code.specs.Room.{most_slots};

use crate::test::Test;
use flat_expressions::{Act, Operand};
use node_table::{CodeExpr, CodeLink};
use std::alloc::AllocError;

/// Appends an act.
fn add(acts: &mut Vec<Act>, act: Act) -> Result<(), AllocError>
    ensures { IfOk result (λ _. acts_shown acts.new.items ≡ acts_shown acts.old.items ++ act_shown act ∷ []) }
{
    acts.push(act)?;
    Ok(())
}

/// Appends the acts that leave the number of an expression in the slot `to`. They leave intermediate numbers in slots from `free` on.
///
/// # Errors
///
/// There is not enough memory.
#[cycle(lower_expression)]
pub fn lower_expression(
    acts: &mut Vec<Act>,
    expr: &CodeExpr,
    to: u16,
    free: u16,
) -> Result<(), AllocError>
    requires { HasRoom most_slots (expr_shown expr.now) free }
    ensures { IfOk result (λ _. acts_shown acts.new.items ≡ acts_shown acts.old.items ++ code_of (expr_shown expr.now) to free) }
{
    match expr {
        CodeExpr::Num(number) => {
            let from = Operand::Number(*number);
            add(acts, Act::Move { to, from })
        }
        CodeExpr::Var(slot) => {
            let from = Operand::Slot(*slot);
            add(acts, Act::Move { to, from })
        }
        CodeExpr::Get(block, index) => {
            let block = *block;
            let index = lower_operand(acts, index, free)?;
            add(acts, Act::Element { to, block, index })
        }
        CodeExpr::Len(block) => {
            let block = *block;
            add(acts, Act::Length { to, block })
        }
        CodeExpr::Neg(operand) => {
            let from = lower_operand(acts, operand, free)?;
            add(acts, Act::Negate { to, from })
        }
        CodeExpr::Chain { first, rest } => {
            let front = lower_operand(acts, first, free)?;
            lower_links(acts, rest, to, free, front)
        }
        CodeExpr::Cmp { op, left, right } => {
            let op = *op;
            let left = lower_operand(acts, left, free)?;
            let right = lower_operand(acts, right, free + 1)?;
            add(
                acts,
                Act::Compare {
                    op,
                    to,
                    left,
                    right,
                },
            )
        }
    }
}

/// Where the number of an operand is, after the acts that bring it there: a number and a slot need none.
///
/// # Errors
///
/// There is not enough memory.
#[cycle(lower_expression)]
pub fn lower_operand(acts: &mut Vec<Act>, expr: &CodeExpr, free: u16) -> Result<Operand, AllocError>
    requires { HasRoom most_slots (expr_shown expr.now) free }
    ensures { IfOk result (λ a. (operand_shown a ≡ operand_of (expr_shown expr.now) free)
        × (acts_shown acts.new.items ≡ acts_shown acts.old.items ++ operand_code (expr_shown expr.now) free)) }
{
    match expr {
        CodeExpr::Num(number) => Ok(Operand::Number(*number)),
        CodeExpr::Var(slot) => Ok(Operand::Slot(*slot)),
        _ => {
            lower_expression(acts, expr, free, free)?;
            Ok(Operand::Slot(free))
        }
    }
}

/// The acts of the links of a chain, whose front is at an operand.
#[cycle(lower_expression)]
fn lower_links(
    acts: &mut Vec<Act>,
    links: &[CodeLink],
    to: u16,
    free: u16,
    front: Operand,
) -> Result<(), AllocError>
    requires { HaveRoom most_slots (links_shown links.now) free }
    ensures { IfOk result (λ _. acts_shown acts.new.items
        ≡ acts_shown acts.old.items ++ links_code (links_shown links.now) to free (operand_shown front)) }
{
    if links.is_empty() {
        return add(acts, Act::Move { to, from: front });
    }
    let mut left = front;
    let mut rest = links;
    'links: while let Some((link, behind)) = rest.split_first() {
        let right = lower_operand(acts, &link.operand, free + 1)?;
        let target = link_target(behind, to, free);
        add(
            acts,
            Act::Operate {
                op: link.op,
                to: target,
                left,
                right,
            },
        )?;
        left = Operand::Slot(free);
        rest = behind;
    }
    Ok(())
}

/// The slot of a chain's number after a link: the one that it goes to after the last one, else a temporary slot.
fn link_target(behind: &[CodeLink], to: u16, free: u16) -> u16
    ensures { result ≡ slot_behind (links_shown behind.now) to free }
{
    match behind.first() {
        None => to,
        Some(_) => free,
    }
}

/// The test of a condition, after the acts that come before it.
///
/// # Errors
///
/// There is not enough memory.
pub fn lower_condition(acts: &mut Vec<Act>, expr: &CodeExpr, free: u16) -> Result<Test, AllocError>
    requires { HasRoom most_slots (expr_shown expr.now) free }
    ensures { IfOk result (λ test. (test_shown test ≡ test_of (expr_shown expr.now) free)
        × (acts_shown acts.new.items ≡ acts_shown acts.old.items ++ before_test (expr_shown expr.now) free)) }
{
    match expr {
        CodeExpr::Cmp { op, left, right } => {
            let op = *op;
            let left = lower_operand(acts, left, free)?;
            let right = lower_operand(acts, right, free + 1)?;
            Ok(Test::Compare { op, left, right })
        }
        _ => {
            let operand = lower_operand(acts, expr, free)?;
            Ok(Test::IsSet(operand))
        }
    }
}
