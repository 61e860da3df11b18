//! The types of the tree of a program, and the tree as plain data.
//!
//! This layer has the types that a parser makes and that a checker, an evaluator and a printer read,
//! and the meaning of these types as plain data, which all definitions about programs speak of. It
//! stands on nothing. Its one theorem is that a value of these types has one tree, and that a list of
//! a tree is the list in the `Vec`, one entry after the other.
#![tactic(auto)]

mod arg;
mod body;
mod chain_op;
mod cmp_op;
mod expr;
mod func;
mod laws;
mod link;
mod name;
mod param;
mod program;
mod ret;
mod ret_value;
mod stmt;
mod stmt_kind;
mod target;

pub use arg::{Arg, Args};
pub use body::Body;
pub use chain_op::ChainOp;
pub use cmp_op::CmpOp;
pub use expr::Expr;
pub use func::{Func, Funcs};
pub use laws::lists_are_lists;
pub use link::{Link, Rest};
pub use name::Name;
pub use param::{Param, ParamKind, Params};
pub use program::Program;
pub use ret::Ret;
pub use ret_value::RetValue;
pub use stmt::Stmt;
pub use stmt_kind::StmtKind;
pub use target::Target;
