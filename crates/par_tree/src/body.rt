use crate::stmt::Stmt;

/// A list of statements.
pub type Body = Vec<Stmt>;
