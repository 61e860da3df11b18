/// Why the reading of tokens stops before its end.
#[derive(Clone, Copy, PartialEq, Eq, Debug)]
pub enum Stop {
    /// No text has the next token after the tokens before it, or the text is cut here.
    Expected,
    /// The next token would open one construct too many.
    TooDeep,
}
