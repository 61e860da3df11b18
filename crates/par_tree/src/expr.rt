use crate::cmp_op::CmpOp;
use crate::link::Rest;
use crate::name::Name;

/// An expression. Parentheses leave no trace.
#[derive(Drop)]
#[cycle(expr)]
pub enum Expr {
    /// A number.
    Num(i64),
    /// An integer's name.
    Var(Name),
    /// A block's word at an index.
    Get(Name, Box<Expr>),
    /// A block's length.
    Len(Name),
    /// A sign and its factor.
    Neg(Box<Expr>),
    /// A sum or a term of at least two operands. All operators are sum operators, or all are term
    /// operators, so a long sum is no deep tree.
    Chain {
        first: Box<Expr>,
        rest: Rest,
    },
    /// A comparison of two sums.
    Cmp {
        op: CmpOp,
        left: Box<Expr>,
        right: Box<Expr>,
    },
}
