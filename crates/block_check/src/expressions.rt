//! Expressions.

ghost use Rattle.std.specs.Prelude.{◌≡◌};
ghost use Rattle.par_tree.specs.View.{expr_tree, links_tree};
ghost use Rattle.par_ownership.specs.Walk.{expr_refusal, links_refusal};
ghost use Rattle.block_check.specs.Shown.{entries_shown, Tests};

use crate::entry::Entry;
use crate::environment::{want_block, want_integer};
use crate::refusal::Tested;
use par_tree::{Expr, Link};

/// An expression is read from left to right.
#[cycle(check_expression)]
pub(crate) fn check_expression<'a>(line: u32, env: &[Entry], expr: &'a Expr) -> Tested<'a>
    ensures { Tests result (expr_refusal line (entries_shown env.now) (expr_tree expr.now)) }
{
    match expr {
        Expr::Num(_) => Ok(()),
        Expr::Var(name) => want_integer(line, env, &name.bytes),
        Expr::Get(name, index) => {
            want_block(line, env, &name.bytes)?;
            check_expression(line, env, index)
        }
        Expr::Len(name) => want_block(line, env, &name.bytes),
        Expr::Neg(operand) => check_expression(line, env, operand),
        Expr::Chain { first, rest } => {
            check_expression(line, env, first)?;
            check_links(line, env, rest)
        }
        Expr::Cmp { left, right, .. } => {
            check_expression(line, env, left)?;
            check_expression(line, env, right)
        }
    }
}

/// The operands of a chain behind its first one.
#[cycle(check_expression)]
fn check_links<'a>(line: u32, env: &[Entry], rest: &'a [Link]) -> Tested<'a>
    ensures { Tests result (links_refusal line (entries_shown env.now) (links_tree rest.now)) }
{
    for link in rest {
        check_expression(line, env, &link.operand)?;
    }
    Ok(())
}
