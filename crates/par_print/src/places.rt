//! Where an expression needs parentheses.

ghost use Rattle.std.specs.Prelude.{◌≡◌};
ghost use Rattle.par_tree.specs.View.{expr_tree, links_tree, chain_op_tree};
ghost use Rattle.canonical_text.specs.Canonical.{operand_place, first_place, are_of_sum, is_sum, is_chain, is_comparison, needs_parentheses};

use canonical_text::Place;
use par_tree::{ChainOp, Expr, Link};

/// The place of an operand.
pub(crate) fn operand_place(op: ChainOp) -> Place
    ensures { result ≡ operand_place (chain_op_tree op) }
{
    match op {
        ChainOp::Add | ChainOp::Sub => Place::Term,
        ChainOp::Mul | ChainOp::Div | ChainOp::Rem => Place::Factor,
    }
}

/// The place of the operand before these links.
pub(crate) fn first_place(rest: &[Link]) -> Place
    ensures { result ≡ first_place (links_tree rest.now) }
{
    match rest.first() {
        None => Place::Factor,
        Some(link) => operand_place(link.op),
    }
}

/// Whether an expression is a comparison.
fn is_comparison(expr: &Expr) -> bool
    ensures { result ≡ is_comparison (expr_tree expr.now) }
{
    matches!(expr, Expr::Cmp { .. })
}

/// Whether an expression is a sum or a term of at least two operands.
fn is_chain(expr: &Expr) -> bool
    ensures { result ≡ is_chain (expr_tree expr.now) }
{
    matches!(expr, Expr::Chain { .. })
}

/// Whether links are those of a sum.
fn are_of_sum(rest: &[Link]) -> bool
    ensures { result ≡ are_of_sum (links_tree rest.now) }
{
    match rest.first() {
        None => false,
        Some(link) => matches!(link.op, ChainOp::Add | ChainOp::Sub),
    }
}

/// Whether an expression is a sum of at least two operands.
fn is_sum(expr: &Expr) -> bool
    ensures { result ≡ is_sum (expr_tree expr.now) }
{
    match expr {
        Expr::Chain { rest, .. } => are_of_sum(rest),
        _ => false,
    }
}

/// Whether an expression needs parentheses in a place.
pub(crate) fn needs_parentheses(place: Place, expr: &Expr) -> bool
    ensures { result ≡ needs_parentheses place (expr_tree expr.now) }
{
    match place {
        Place::Expression => false,
        Place::Sum => is_comparison(expr),
        Place::Term => is_comparison(expr) || is_sum(expr),
        Place::Factor => is_comparison(expr) || is_chain(expr),
    }
}
