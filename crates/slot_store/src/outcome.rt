/// What an expression comes to: its number, or its fault. It is two machine words, so a call answers it without memory.
#[derive(Clone, Copy)]
pub(crate) enum Outcome {
    /// The number.
    Number(i64),
    /// A place outside of its block.
    Index,
    /// A division by 0.
    Divide,
}
