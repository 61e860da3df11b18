use crate::stmt_kind::StmtKind;

/// A statement, and the line of its first token, from 1.
#[derive(Drop)]
#[cycle(stmt)]
pub struct Stmt {
    pub line: u32,
    pub kind: StmtKind,
}
