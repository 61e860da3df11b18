//! The operators of sums and products.

ghost use Rattle.std.specs.Prelude.{◌≡◌, Ok};
ghost use Rattle.par_tree.specs.View.{chain_op_tree};
ghost use Rattle.depth_first_run.specs.Values.{operated, negated};

use dag_order::FaultKind;
use par_tree::ChainOp;

/// An operator on its two operands.
///
/// Results wrap; `/` rounds towards zero, and `%` has the sign of its left side.
///
/// # Errors
///
/// `Divide`, exactly where the right side of `/` or `%` is 0.
#[tactic(auto, unfolding(depth_first_run::specs::Values::operated))]
pub fn operate(op: ChainOp, left: i64, right: i64) -> Result<i64, FaultKind>
    ensures { result ≡ operated (chain_op_tree op) left right }
{
    match op {
        ChainOp::Add => Ok(left.wrapping_add(right)),
        ChainOp::Sub => Ok(left.wrapping_sub(right)),
        ChainOp::Mul => Ok(left.wrapping_mul(right)),
        ChainOp::Div => divide(left, right),
        ChainOp::Rem => remainder(left, right),
    }
}

/// A quotient, rounded towards zero.
#[tactic(auto, unfolding(depth_first_run::specs::Values::operated))]
fn divide(left: i64, right: i64) -> Result<i64, FaultKind>
    ensures { result ≡ operated (chain_op_tree ChainOp.Div) left right }
{
    if right == 0 {
        Err(FaultKind::Divide)
    } else {
        Ok(left.wrapping_div(right))
    }
}

/// A remainder, with the sign of the left side.
#[tactic(auto, unfolding(depth_first_run::specs::Values::operated))]
fn remainder(left: i64, right: i64) -> Result<i64, FaultKind>
    ensures { result ≡ operated (chain_op_tree ChainOp.Rem) left right }
{
    if right == 0 {
        Err(FaultKind::Divide)
    } else {
        Ok(left.wrapping_rem(right))
    }
}

/// The number with the other sign, wrapped.
pub fn negate(number: i64) -> i64
    ensures { negated number ≡ Ok result }
{
    number.wrapping_neg()
}
