use crate::name::Name;

/// Where the answer of a call goes.
#[derive(Drop)]
pub enum Target {
    /// Nowhere.
    Unused,
    /// To an integer, as in `call x = f();`.
    Int(Name),
    /// To a new owned block, as in `call own x = f();`.
    Own(Name),
}
