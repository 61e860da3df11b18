//! Comparisons and conditions.

ghost use Rattle.std.specs.Prelude.{◌≡◌, Ok};
ghost use Rattle.par_tree.specs.View.{cmp_op_tree};
ghost use Rattle.depth_first_run.specs.Values.{compared, holds, is_true};

use par_tree::CmpOp;

/// A comparison: 1 where it holds, and else 0.
#[tactic(auto, unfolding(depth_first_run::specs::Values::compared))]
pub fn compare(op: CmpOp, left: i64, right: i64) -> i64
    ensures { compared (cmp_op_tree op) left right ≡ Ok result }
{
    if holds(op, left, right) { 1 } else { 0 }
}

/// Whether a comparison holds.
fn holds(op: CmpOp, left: i64, right: i64) -> bool
    ensures { result ≡ holds (cmp_op_tree op) left right }
{
    match op {
        CmpOp::Eq => left == right,
        CmpOp::Ne => left != right,
        CmpOp::Lt => left < right,
        CmpOp::Le => left <= right,
        CmpOp::Gt => left > right,
        CmpOp::Ge => left >= right,
    }
}

/// Whether a condition holds: where its number is not 0.
pub fn is_true(number: i64) -> bool
    ensures { result ≡ is_true number }
{
    number != 0
}
