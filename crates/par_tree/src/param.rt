use crate::name::Name;

/// What a parameter takes.
#[derive(Clone, Copy)]
pub enum ParamKind {
    /// An integer.
    Int,
    /// A block that is lent, as in `use b`.
    Lent,
    /// A block that is given, as in `own b`.
    Owned,
}

/// A parameter of a function.
#[derive(Drop)]
pub struct Param {
    pub name: Name,
    pub kind: ParamKind,
}

/// The parameters of a function, in order.
pub type Params = Vec<Param>;
