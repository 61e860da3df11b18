//! Expressions.

ghost use Rattle.std.specs.Prelude.{◌≡◌, ◌++◌, IfOk, codes};
ghost use Rattle.par_tree.specs.View.{name_tree, expr_tree, links_tree};
ghost use Rattle.par_tree.specs.Tree.{get as element_tree, len_of as extent_tree, neg as negative_tree};
ghost use Rattle.canonical_text.specs.Canonical.{expr_text, links_text, text_in};
ghost use Rattle.canonical_text.specs.declared.place.Place.TheVariants.{Factor};

use crate::places::{first_place, needs_parentheses, operand_place};
use crate::words::{comparison, operator, print_number};
use canonical_text::Place;
use par_tree::{Expr, Link, Name};
use std::alloc::{AllocError, Global};

/// `len(b)`.
fn print_len(block: &Name, out: &mut Vec<u8>) -> Result<(), AllocError>
    ensures { IfOk result (λ _. out.new.items ≡ out.old.items ++ expr_text (extent_tree (name_tree block.now))) }
{
    out.extend_from_slice(b"len(")?;
    out.extend_from_slice(&block.bytes)?;
    out.extend_from_slice(b")")
}

/// `b[e]`.
#[cycle(print_expression)]
fn print_get(alloc: Global, block: &Name, index: &Expr, out: &mut Vec<u8>) -> Result<(), AllocError>
    ensures { IfOk result (λ _. out.new.items ≡ out.old.items ++ expr_text (element_tree (name_tree block.now) (expr_tree index.now))) }
{
    out.extend_from_slice(&block.bytes)?;
    out.extend_from_slice(b"[")?;
    print_expression(alloc, index, out)?;
    out.extend_from_slice(b"]")
}

/// A sign and its factor.
#[cycle(print_expression)]
fn print_neg(alloc: Global, signed: &Expr, out: &mut Vec<u8>) -> Result<(), AllocError>
    ensures { IfOk result (λ _. out.new.items ≡ out.old.items ++ expr_text (negative_tree (expr_tree signed.now))) }
{
    out.extend_from_slice(b"-")?;
    print_operand(alloc, Place::Factor, signed, out)
}

/// Operators and operands behind the first operand of a chain.
#[cycle(print_expression)]
fn print_links(alloc: Global, rest: &[Link], out: &mut Vec<u8>) -> Result<(), AllocError>
    ensures { IfOk result (λ _. out.new.items ≡ out.old.items ++ links_text (links_tree rest.now)) }
{
    'links: for link in rest {
        out.extend_from_slice(operator(link.op))?;
        print_operand(alloc, operand_place(link.op), &link.operand, out)?;
    }
    Ok(())
}

/// An expression in a place, between parentheses where it needs them.
#[cycle(print_expression)]
fn print_operand(
    alloc: Global,
    place: Place,
    expr: &Expr,
    out: &mut Vec<u8>,
) -> Result<(), AllocError>
    ensures { IfOk result (λ _. out.new.items ≡ out.old.items ++ text_in place (expr_tree expr.now)) }
{
    if !needs_parentheses(place, expr) {
        return print_expression(alloc, expr, out);
    }
    out.extend_from_slice(b"(")?;
    print_expression(alloc, expr, out)?;
    out.extend_from_slice(b")")
}

/// An expression.
#[cycle(print_expression)]
pub(crate) fn print_expression(
    alloc: Global,
    expr: &Expr,
    out: &mut Vec<u8>,
) -> Result<(), AllocError>
    ensures { IfOk result (λ _. out.new.items ≡ out.old.items ++ expr_text (expr_tree expr.now)) }
{
    match expr {
        Expr::Num(value) => print_number(alloc, *value, out),
        Expr::Var(name) => out.extend_from_slice(&name.bytes),
        Expr::Get(block, index) => print_get(alloc, block, index, out),
        Expr::Len(block) => print_len(block, out),
        Expr::Neg(signed) => print_neg(alloc, signed, out),
        Expr::Chain { first, rest } => {
            print_operand(alloc, first_place(rest), first, out)?;
            print_links(alloc, rest, out)
        }
        Expr::Cmp { op, left, right } => {
            print_operand(alloc, Place::Sum, left, out)?;
            out.extend_from_slice(comparison(*op))?;
            print_operand(alloc, Place::Sum, right, out)
        }
    }
}
