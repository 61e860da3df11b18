//! The flat code of a list of statements that a thread does not leave by itself.

ghost use Rattle.std.specs.Prelude.{◌↔◌, ◌<◌, ◌≤◌, IfOk, IsTrue};
ghost use Rattle.node_table.specs.Codes.{code_shown};
ghost use Rattle.flat_statements.specs.Codes.{IsWholeCode};
ghost use Rattle.flat_statements.specs.Forward.{IsForward};
ghost use Rattle.flat_code.specs.Fits.{CanBeFlat};
ghost use Rattle.flat_code.specs.Made.{code_length};
ghost use Rattle.flat_code.specs.Refused.{IfTooLong, most_places};
ghost use Rattle.flat_code.specs.Shown.{flat_shown};
ghost use Rattle.flat_code.specs.Starts.{OthersBegin};

use crate::fitting::fits_list;
use crate::instruction::Instruction;
use crate::lower_fail::LowerFail;
use crate::place::Places;
use crate::placing::add_place;
use crate::scope::Scope;
use crate::statements::lower_list;
use node_table::NodeTable;
use std::alloc::Global;
use thread_stack::{Frame, ListOf, numbers};

/// Whether a list of statements has flat code in a function with so many slots, in a row of `size` slots: its expressions find the
/// temporary slots that they need.
pub fn can_be_flat(table: &NodeTable, list: ListOf, slots: u16, size: u16) -> bool
    ensures { IsTrue result ↔ CanBeFlat (code_shown table.now) slots size list }
{
    let scope = Scope { table, slots, size };
    slots <= size && fits_list(&scope, numbers(table, list), table.len())
}

/// The flat code of a list of statements in a function with so many slots, in a row of `size` slots. It begins at the place 0.
///
/// # Errors
///
/// There is not enough memory, or there are more places than 32 bits can number.
pub fn lower_whole(
    alloc: Global,
    table: &NodeTable,
    list: ListOf,
    slots: u16,
    size: u16,
) -> Result<Places, LowerFail>
    requires { CanBeFlat (code_shown table.now) slots size list }
    ensures code { IfOk result (λ v. IsWholeCode (code_shown table.now) (flat_shown v.items) slots size list 0) }
    ensures forward { IfOk result (λ v. IsForward (flat_shown v.items)) }
    ensures long { IfTooLong result (most_places < code_length (code_shown table.now) slots list) }
    ensures short { IfOk result (λ _. code_length (code_shown table.now) slots list ≤ most_places) }
    ensures begins { IfOk result (λ v. OthersBegin (code_shown table.now) (flat_shown v.items) slots size) }
{
    let scope = Scope { table, slots, size };
    let none: &[Frame] = &[];
    let inside = numbers(table, list);
    let mut places = lower_list(alloc, &scope, inside, list, none, 0, table.len())?;
    if places.len() > u32::MAX as usize {
        return Err(LowerFail::TooLong);
    }
    add_place(alloc, &mut places, Instruction::Leave, none)?;
    Ok(places)
}
