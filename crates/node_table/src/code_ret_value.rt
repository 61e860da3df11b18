use crate::code_expr::CodeExpr;

/// What a `return` gives back.
#[derive(Drop)]
pub enum CodeRetValue {
    /// An integer.
    Int(CodeExpr),
    /// The block of a slot.
    Own(u16),
}
