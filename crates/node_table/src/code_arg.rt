use crate::code_expr::CodeExpr;

/// An argument of a call.
#[derive(Drop)]
pub enum CodeArg {
    /// An integer.
    Value(CodeExpr),
    /// The block of a slot, lent.
    Lend(u16),
    /// The block of a slot, given away.
    Give(u16),
}

/// The arguments of a call, in order.
pub type CodeArgs = Vec<CodeArg>;
