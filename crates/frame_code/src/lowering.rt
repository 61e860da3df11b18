ghost use Rattle.std.specs.Prelude.{IfOk};
ghost use Rattle.par_tree.specs.View.{program_tree};
ghost use Rattle.block_check.specs.Checked.{program_of};
ghost use Rattle.node_table.specs.Codes.{code_shown};
ghost use Rattle.node_table.specs.Programs.{IsTableOf};

use crate::function_numbers::FunctionNumbers;
use crate::functions::lower_functions;
use block_check::Checked;
use node_table::NodeTable;
use std::alloc::{AllocError, Global};
use thread_code::Code;

/// A program with frame slots in place of names, and nodes in place of statements.
///
/// The table, read with names in place of slots and of function numbers, is the program, and what stands inside a node has greater numbers.
/// It takes time of at most the size of the program times the names of a function; the function of a call is found in a map of their names.
///
/// # Errors
///
/// There is not enough memory.
pub fn table_of(alloc: Global, program: &Checked) -> Result<NodeTable, AllocError>
    ensures { IfOk result (λ t. IsTableOf (program_tree (program_of program.now)) (code_shown t)) }
{
    let funcs = &program.program().funcs;
    let functions = FunctionNumbers::of(alloc, funcs)?;
    let (nodes, codes) = lower_functions(alloc, &functions)?;
    let main = functions.number(b"main".as_slice());
    Ok(NodeTable::of(nodes, codes, main))
}

/// The code of a program: its node table, and the flat code that its threads run by.
///
/// # Errors
///
/// There is not enough memory.
pub fn code_of(alloc: Global, program: &Checked) -> Result<Code, AllocError>
    ensures { IfOk result (λ c. IsTableOf (program_tree (program_of program.now)) (code_shown c)) }
{
    let table = table_of(alloc, program)?;
    Code::of(alloc, table)
}

/// The code of a program, of which there is no further use.
///
/// # Errors
///
/// There is not enough memory.
pub fn lower(alloc: Global, program: Checked) -> Result<Code, AllocError>
    ensures { IfOk result (λ c. IsTableOf (program_tree (program_of program)) (code_shown c)) }
{
    code_of(alloc, &program)
}
