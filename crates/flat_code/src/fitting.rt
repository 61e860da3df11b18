//! Whether statements have flat code.

ghost use Rattle.std.specs.Prelude.{◌↔◌, IsTrue, Some};
ghost use Rattle.node_table.specs.Shown.{expr_shown, links_shown, kind_shown};
ghost use Rattle.node_table.specs.Reading.{FitsExpr, FitsLinks};
ghost use Rattle.flat_code.specs.Fits.{FitsSet, FitsPut, FitsTest, AllFit, FitsKind, FitsNode};
ghost use Rattle.flat_code.specs.Shown.{table_of};

use crate::room::has_room;
use crate::scope::Scope;
use node_table::{CodeExpr, CodeLink, NodeKind};

/// Whether each slot of an expression is one of the function's.
#[cycle(fits_expression)]
fn fits_expression(expr: &CodeExpr, slots: u16) -> bool
    ensures { IsTrue result ↔ FitsExpr slots (expr_shown expr.now) }
{
    match expr {
        CodeExpr::Num(_) => true,
        CodeExpr::Var(slot) => *slot < slots,
        CodeExpr::Get(block, index) => *block < slots && fits_expression(index, slots),
        CodeExpr::Len(block) => *block < slots,
        CodeExpr::Neg(operand) => fits_expression(operand, slots),
        CodeExpr::Chain { first, rest } => {
            fits_expression(first, slots) && fits_links(rest, slots)
        }
        CodeExpr::Cmp { left, right, .. } => {
            fits_expression(left, slots) && fits_expression(right, slots)
        }
    }
}

/// The same of the links of a chain.
#[cycle(fits_expression)]
fn fits_links(links: &[CodeLink], slots: u16) -> bool
    ensures { IsTrue result ↔ FitsLinks slots (links_shown links.now) }
{
    for link in links {
        if !fits_expression(&link.operand, slots) {
            return false;
        }
    }
    true
}

/// Whether an assignment has code.
fn fits_set(scope: &Scope, slot: u16, value: &CodeExpr) -> bool
    ensures { IsTrue result ↔ FitsSet scope.now.slots scope.now.size slot (expr_shown value.now) }
{
    slot < scope.slots
        && fits_expression(value, scope.slots)
        && has_room(value, scope.slots, scope.size)
}

/// Whether a write to a block has code.
fn fits_put(scope: &Scope, block: u16, index: &CodeExpr, value: &CodeExpr) -> bool
    ensures { IsTrue result ↔ FitsPut scope.now.slots scope.now.size block (expr_shown index.now) (expr_shown value.now) }
{
    if scope.slots >= scope.size || scope.slots + 1 >= scope.size {
        return false;
    }
    block < scope.slots
        && fits_expression(index, scope.slots)
        && has_room(index, scope.slots, scope.size)
        && fits_expression(value, scope.slots)
        && has_room(value, scope.slots + 1, scope.size)
}

/// Whether a condition has code.
fn fits_test(scope: &Scope, cond: &CodeExpr) -> bool
    ensures { IsTrue result ↔ FitsTest scope.now.slots scope.now.size (expr_shown cond.now) }
{
    scope.slots < scope.size
        && fits_expression(cond, scope.slots)
        && has_room(cond, scope.slots, scope.size)
}

/// Whether the statements of these nodes have code.
#[cycle(fits)]
pub(crate) fn fits_list(scope: &Scope, numbers: &[u32], depth: u32) -> bool
    ensures { IsTrue result ↔ AllFit (FitsNode (table_of scope.now) scope.now.slots scope.now.size depth) numbers.now }
{
    for number in numbers {
        if !fits_node(scope, *number, depth) {
            return false;
        }
    }
    true
}

/// Whether the statement of a node has code.
#[cycle(fits)]
fn fits_node(scope: &Scope, number: u32, depth: u32) -> bool
    ensures { IsTrue result ↔ FitsNode (table_of scope.now) scope.now.slots scope.now.size depth number }
{
    if depth == 0 {
        return false;
    }
    match scope.table.node(number) {
        None => false,
        Some(node) => fits_kind(scope, &node.kind, depth - 1),
    }
}

/// The same by what the node does.
#[cycle(fits)]
fn fits_kind(scope: &Scope, kind: &NodeKind, depth: u32) -> bool
    ensures { IsTrue result ↔ FitsKind scope.now.slots scope.now.size (FitsNode (table_of scope.now) scope.now.slots scope.now.size depth)
        (Some (kind_shown kind.now)) }
{
    match kind {
        NodeKind::Let { name, value } => fits_set(scope, *name, value),
        NodeKind::Assign { name, value } => fits_set(scope, *name, value),
        NodeKind::Put {
            block,
            index,
            value,
        } => fits_put(scope, *block, index, value),
        NodeKind::If { cond, then, other } => {
            fits_test(scope, cond)
                && fits_list(scope, then, depth)
                && fits_list(scope, other, depth)
        }
        NodeKind::While { cond, body } => fits_test(scope, cond) && fits_list(scope, body, depth),
        _ => true,
    }
}
