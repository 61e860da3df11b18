//! Flat code as a text for a person.

ghost use Rattle.std.specs.Prelude.{◌≡◌, ◌++◌, OnOk, IfOk, string_bytes};
ghost use Rattle.par_tree.specs.View.{chain_op_tree, cmp_op_tree};
ghost use Rattle.flat_expressions.specs.Shown.{operand_shown, act_shown};
ghost use Rattle.flat_code.specs.Listing.{operand_text, operator_text, comparison_text, act_text, test_text, flat_text, list_text, frame_text};
ghost use Rattle.flat_code.specs.Listing.{frames_text, place_text, places_text, element_text};
ghost use Rattle.flat_code.specs.Shown.{test_shown, instruction_shown};

use crate::instruction::Instruction;
use crate::place::Place;
use crate::test::Test;
use flat_expressions::{Act, Operand};
use par_tree::{ChainOp, CmpOp};
use std::alloc::{AllocError, Global};
use std::fmt::Write;
use thread_stack::{Frame, ListOf};

/// Writes an operand: a slot after `s`, or a number.
fn push_operand(text: &mut String, operand: Operand) -> Result<(), AllocError>
    ensures { OnOk result (string_bytes text.new ≡ string_bytes text.old ++ operand_text (operand_shown operand)) }
{
    match operand {
        Operand::Slot(slot) => write!(text, "s{slot}"),
        Operand::Number(number) => write!(text, "{number}"),
    }
}

/// Writes a number of a block.
fn push_element(text: &mut String, block: u16, index: Operand) -> Result<(), AllocError>
    ensures { OnOk result (string_bytes text.new ≡ string_bytes text.old ++ element_text block (operand_shown index)) }
{
    write!(text, "s{block}[")?;
    push_operand(text, index)?;
    write!(text, "]")
}

/// Writes an operator with a space on each side.
fn push_operator(text: &mut String, op: ChainOp) -> Result<(), AllocError>
    ensures { OnOk result (string_bytes text.new ≡ string_bytes text.old ++ operator_text (chain_op_tree op)) }
{
    match op {
        ChainOp::Add => write!(text, " + "),
        ChainOp::Sub => write!(text, " - "),
        ChainOp::Mul => write!(text, " * "),
        ChainOp::Div => write!(text, " / "),
        ChainOp::Rem => write!(text, " % "),
    }
}

/// Writes a comparison with a space on each side.
fn push_comparison(text: &mut String, op: CmpOp) -> Result<(), AllocError>
    ensures { OnOk result (string_bytes text.new ≡ string_bytes text.old ++ comparison_text (cmp_op_tree op)) }
{
    match op {
        CmpOp::Eq => write!(text, " == "),
        CmpOp::Ne => write!(text, " != "),
        CmpOp::Lt => write!(text, " < "),
        CmpOp::Le => write!(text, " <= "),
        CmpOp::Gt => write!(text, " > "),
        CmpOp::Ge => write!(text, " >= "),
    }
}

/// Writes an act.
fn push_act(text: &mut String, act: Act) -> Result<(), AllocError>
    ensures { OnOk result (string_bytes text.new ≡ string_bytes text.old ++ act_text (act_shown act)) }
{
    match act {
        Act::Move { to, from } => {
            write!(text, "s{to} = ")?;
            push_operand(text, from)
        }
        Act::Length { to, block } => write!(text, "s{to} = len s{block}"),
        Act::Element { to, block, index } => {
            write!(text, "s{to} = ")?;
            push_element(text, block, index)
        }
        Act::Negate { to, from } => {
            write!(text, "s{to} = -")?;
            push_operand(text, from)
        }
        Act::Operate {
            op,
            to,
            left,
            right,
        } => {
            write!(text, "s{to} = ")?;
            push_operand(text, left)?;
            push_operator(text, op)?;
            push_operand(text, right)
        }
        Act::Compare {
            op,
            to,
            left,
            right,
        } => {
            write!(text, "s{to} = ")?;
            push_operand(text, left)?;
            push_comparison(text, op)?;
            push_operand(text, right)
        }
    }
}

/// Writes a test.
fn push_test(text: &mut String, test: Test) -> Result<(), AllocError>
    ensures { OnOk result (string_bytes text.new ≡ string_bytes text.old ++ test_text (test_shown test)) }
{
    match test {
        Test::IsSet(operand) => push_operand(text, operand),
        Test::Compare { op, left, right } => {
            push_operand(text, left)?;
            push_comparison(text, op)?;
            push_operand(text, right)
        }
    }
}

/// Writes what is at a place.
fn push_instruction(text: &mut String, what: Instruction) -> Result<(), AllocError>
    ensures { OnOk result (string_bytes text.new ≡ string_bytes text.old ++ flat_text (instruction_shown what)) }
{
    match what {
        Instruction::Act(act) => push_act(text, act),
        Instruction::Write { block, index, from } => {
            push_element(text, block, index)?;
            write!(text, " = ")?;
            push_operand(text, from)
        }
        Instruction::Unless { test, other } => {
            write!(text, "if ")?;
            push_test(text, test)?;
            write!(text, " else {other}")
        }
        Instruction::Round { test, body, behind } => {
            write!(text, "while ")?;
            push_test(text, test)?;
            write!(text, " go to {body} else {behind}")
        }
        Instruction::Jump(place) => write!(text, "go to {place}"),
        Instruction::Leave => write!(text, "leave"),
    }
}

/// Writes the name of a list.
fn push_list(text: &mut String, list: ListOf) -> Result<(), AllocError>
    ensures { OnOk result (string_bytes text.new ≡ string_bytes text.old ++ list_text list) }
{
    match list {
        ListOf::Body(func) => write!(text, "body {func}"),
        ListOf::Then(node) => write!(text, "then {node}"),
        ListOf::Other(node) => write!(text, "else {node}"),
        ListOf::Round(node) => write!(text, "round {node}"),
        ListOf::Left(node) => write!(text, "left {node}"),
        ListOf::Right(node) => write!(text, "right {node}"),
        ListOf::Inside(node) => write!(text, "inside {node}"),
    }
}

/// Writes a frame of a mark.
fn push_frame(text: &mut String, frame: Frame) -> Result<(), AllocError>
    ensures { OnOk result (string_bytes text.new ≡ string_bytes text.old ++ frame_text frame) }
{
    match frame {
        Frame::Statements { list, next } => {
            write!(text, " | ")?;
            push_list(text, list)?;
            write!(text, " at {next}")
        }
        Frame::Again(node) => write!(text, " | again {node}"),
        _ => write!(text, " | other"),
    }
}

/// Writes a mark, the next frame last.
fn push_mark(text: &mut String, mark: &[Frame]) -> Result<(), AllocError>
    ensures { OnOk result (string_bytes text.new ≡ string_bytes text.old ++ frames_text mark.now) }
{
    for frame in mark {
        push_frame(text, *frame)?;
    }
    Ok(())
}

/// Writes the line of a place.
fn push_place(text: &mut String, number: usize, place: &Place) -> Result<(), AllocError>
    ensures { OnOk result (string_bytes text.new ≡ string_bytes text.old ++ place_text number place.now) }
{
    write!(text, "{number} ")?;
    push_instruction(text, place.what)?;
    push_mark(text, &place.mark)?;
    writeln!(text, "")
}

/// A text of places for a person: a line for each, with its number, what is there, and its mark, the next frame last.
///
/// # Errors
///
/// There is not enough memory.
pub fn listing(alloc: Global, places: &[Place]) -> Result<String, AllocError>
    ensures { IfOk result (λ text. string_bytes text ≡ places_text 0 places.now) }
{
    let mut text = String::new(alloc);
    for number in 0..places.len() {
        push_place(&mut text, number, &places[number])?;
    }
    Ok(text)
}
