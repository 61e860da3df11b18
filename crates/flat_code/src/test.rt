use flat_expressions::Operand;
use par_tree::CmpOp;

/// The test of a condition.
#[derive(Clone, Copy)]
pub enum Test {
    /// The number of an operand is not 0.
    IsSet(Operand),
    /// A comparison of two operands holds.
    Compare {
        op: CmpOp,
        left: Operand,
        right: Operand,
    },
}
