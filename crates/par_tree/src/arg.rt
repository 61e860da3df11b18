use crate::expr::Expr;
use crate::name::Name;

/// An argument of a call.
#[derive(Drop)]
pub enum Arg {
    /// An integer.
    Value(Expr),
    /// A block that is lent, as in `use b`.
    Lend(Name),
    /// A block that is given away, as in `own b`.
    Give(Name),
}

/// The arguments of a call, in order.
pub type Args = Vec<Arg>;
