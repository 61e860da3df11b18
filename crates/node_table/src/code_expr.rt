use crate::code_link::CodeRest;
use par_tree::CmpOp;

/// An expression over the slots of a frame.
#[derive(Drop)]
#[cycle(expr)]
pub enum CodeExpr {
    /// A number.
    Num(i64),
    /// An integer's slot.
    Var(u16),
    /// A block's word at an index.
    Get(u16, Box<CodeExpr>),
    /// A block's length.
    Len(u16),
    /// A sign and its factor.
    Neg(Box<CodeExpr>),
    /// A sum or a term of at least two operands.
    Chain {
        first: Box<CodeExpr>,
        rest: CodeRest,
    },
    /// A comparison of two sums.
    Cmp {
        op: CmpOp,
        left: Box<CodeExpr>,
        right: Box<CodeExpr>,
    },
}
