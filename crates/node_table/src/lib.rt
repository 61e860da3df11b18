//! The node table: a program with frame slots in place of names, as a table of statements.
//!
//! In the table a name is the number of a slot of its function's frame, and a list of statements is a list of node numbers. This layer has
//! the table's types, says what a table means, reads and copies it. It stands on the tree of programs and on the rules of ownership. Its
//! one theorem is that each node table is that of a program that keeps these rules, where a table is that of a program if it is the program,
//! read with names in place of slots and of function numbers. Want of memory is its one free answer.
#![tactic(auto)]

mod code_arg;
mod code_expr;
mod code_link;
mod code_ret;
mod code_ret_value;
mod code_target;
mod copies;
mod func_code;
mod laws;
mod node;
mod node_kind;
mod node_table;
mod reading;

pub use code_arg::{CodeArg, CodeArgs};
pub use code_expr::CodeExpr;
pub use code_link::{CodeLink, CodeRest};
pub use code_ret::CodeRet;
pub use code_ret_value::CodeRetValue;
pub use code_target::CodeTarget;
pub use func_code::FuncCode;
pub use laws::{
    calls_find_functions, numbers_have_nodes, same_table_same_program, slot_names_differ,
};
pub use node::{Node, NodeList, Slots};
pub use node_kind::NodeKind;
pub use node_table::NodeTable;
