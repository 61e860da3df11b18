/// A place where an expression stands, named for the rule of the grammar that reads what stands there.
#[derive(Clone, Copy)]
pub enum Place {
    /// All expressions stand here: between brackets, behind a keyword, as an argument.
    Expression,
    /// A side of a comparison.
    Sum,
    /// An operand of a sum.
    Term,
    /// An operand of a term, or what a sign stands before.
    Factor,
}
