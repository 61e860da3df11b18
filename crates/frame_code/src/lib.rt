//! Makes the code of an accepted program: its node table, and the flat code that threads run by.
//!
//! This layer turns an accepted program into a table of statements, in which a name is the number of a slot of its function's frame and a
//! list of statements is a list of node numbers, and has the flat code of the table made (`thread_code`). It stands on the table's types, on
//! the code of threads, on the checker and on the laws of accepted programs. Its one theorem is that the table, read with names in place of
//! slots and of function numbers, is the program. Want of memory is its one free answer.
//!
//! # Why
//!
//! - **The table is read by a relation over the program** (`specs/Table.antt`): a node is this statement, these numbers are these statements.
//!   It recurses over the program and not over the table, so it needs no count of steps, and one step of it is what each kind of node is. The
//!   numbers inside a node are greater than its own by the relation itself.
//! - **A function's slots are the names that it declares**, each once, in the order of the text (`slot_names`). So names and slots are a
//!   bijection: each slot has a name, different slots have different ones (`slot_names_differ`), and one declared name has one slot, also if
//!   two lists declare it.
//! - **The names are not kept.** They are a function of the program, which the contract of `lower` names. The table has only numbers.
//! - **A node is put in when what is inside it has been put after it**: its place is kept by a node that is overwritten.
//! - **The sets of a `par` are made while its statement is**, from the names that are visible there, so no function is walked once more for
//!   each of them.
//! - **"Not enough memory" is the one free answer of `lower`.** A slot has 16 bits and a number 32, and a name must have a slot and a call a
//!   function. That they do follows from what `Checked` carries: the rules give the names and the calls (`accepted_source`), and the text gives
//!   the counts (`accepted_source`). So the private functions require what they need, `Slotted.CanBeLowered`, and have no answer for its lack.
//! - **The nodes of a table are as many as the statements of its program.** Each call says how many nodes it adds, so the next number is in
//!   range.
//! - **A copy is the same as plain data.** The memory that holds a list is not part of it, so a copy is no equal value of the table.
//!   `code_shown` says what a table is as plain data, and the law `same_table_same_program` brings all that is read of a code to its copy.
#![tactic(auto)]

mod branches;
mod declared;
mod expressions;
mod function_numbers;
mod functions;
mod lowering;
mod scope;
mod slot_names;
mod statements;

pub use lowering::{code_of, lower, table_of};
pub use node_table::{
    CodeArg, CodeArgs, CodeExpr, CodeLink, CodeRest, CodeRet, CodeRetValue, CodeTarget, FuncCode,
    Node, NodeKind, NodeList, NodeTable, Slots,
};
pub use thread_code::Code;
