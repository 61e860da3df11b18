use crate::code_expr::CodeExpr;
use par_tree::ChainOp;

/// An operator of a chain and the operand on its right.
#[derive(Drop)]
#[cycle(expr)]
pub struct CodeLink {
    pub op: ChainOp,
    pub operand: CodeExpr,
}

/// The links of a chain, from left to right.
pub type CodeRest = Vec<CodeLink>;
