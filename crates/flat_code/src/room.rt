//! Whether a row has the slots that an expression needs for its intermediate numbers.

ghost use Rattle.std.specs.Prelude.{◌↔◌, IsTrue};
ghost use Rattle.node_table.specs.Shown.{expr_shown, links_shown};
ghost use Rattle.flat_expressions.specs.Codes.{HasRoom, HaveRoom};

use node_table::{CodeExpr, CodeLink};

/// Whether the acts of an expression find the slots for its intermediate numbers, from `free` on, in a row of `size` slots.
#[cycle(has_room)]
pub fn has_room(expr: &CodeExpr, free: u16, size: u16) -> bool
    ensures { IsTrue result ↔ HasRoom size (expr_shown expr.now) free }
{
    match expr {
        CodeExpr::Num(_) => true,
        CodeExpr::Var(_) => true,
        CodeExpr::Get(_, index) => free < size && has_room(index, free, size),
        CodeExpr::Len(_) => true,
        CodeExpr::Neg(operand) => free < size && has_room(operand, free, size),
        CodeExpr::Chain { first, rest } => {
            free < size && has_room(first, free, size) && have_room(rest, free, size)
        }
        CodeExpr::Cmp { left, right, .. } => {
            if free >= size || free + 1 >= size {
                return false;
            }
            has_room(left, free, size) && has_room(right, free + 1, size)
        }
    }
}

/// The same of the links of a chain.
#[cycle(has_room)]
fn have_room(links: &[CodeLink], free: u16, size: u16) -> bool
    ensures { IsTrue result ↔ HaveRoom size (links_shown links.now) free }
{
    for link in links {
        if free >= size || free + 1 >= size {
            return false;
        }
        if !has_room(&link.operand, free + 1, size) {
            return false;
        }
    }
    true
}
