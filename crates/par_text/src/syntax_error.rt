/// Why bytes are no text.
#[derive(Clone, Copy, PartialEq, Eq, Debug)]
pub enum SyntaxKind {
    /// A byte that no text has. All bytes are tested before the tokens.
    BadByte,
    /// A token that has no form: a name of more than 32 bytes, digits directly followed by a letter or
    /// `_`, a `!` without `=`, or a byte that begins no token.
    BadToken,
    /// A number above the greatest number of 64 bits with a sign.
    NumberTooLarge,
    /// A token that no text has after the tokens before it, or the end of a text that is cut.
    Expected,
    /// A token that would open a 65th construct.
    TooDeep,
    /// More than 1,048,576 bytes.
    TooLong,
    /// The `fn` of the 1,025th function, or the 257th name that one function declares.
    TooMany,
}

/// Why and where bytes are no text.
#[derive(Clone, Copy, PartialEq, Eq, Debug)]
pub struct SyntaxError {
    pub kind: SyntaxKind,
    /// The place of the first byte of what is refused, or the count of the bytes where a text is cut.
    pub at: u32,
}
