use crate::expr::Expr;
use crate::name::Name;

/// What a `return` gives back.
#[derive(Drop)]
pub enum RetValue {
    /// An integer, as in `return e;`.
    Int(Expr),
    /// A block, as in `return own b;`.
    Own(Name),
}
