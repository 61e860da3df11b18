use crate::chain_op::ChainOp;
use crate::expr::Expr;

/// An operator of a chain and the operand on its right.
#[derive(Drop)]
#[cycle(expr)]
pub struct Link {
    pub op: ChainOp,
    pub operand: Expr,
}

/// The links of a chain, from left to right.
pub type Rest = Vec<Link>;
