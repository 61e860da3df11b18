/// A list of statements of a code: of a function of this number, or of a node of this number.
#[derive(Clone, Copy, PartialEq, Eq, Debug)]
pub enum ListOf {
    /// The body of a function.
    Body(u32),
    /// The arm of an `if` whose condition holds.
    Then(u32),
    /// The other arm.
    Other(u32),
    /// The body of a `while`.
    Round(u32),
    /// The first branch of a `par`, which the child runs.
    Left(u32),
    /// The second branch, which the thread runs itself.
    Right(u32),
    /// The body of a `split`.
    Inside(u32),
}
