/// Where a token stands.
#[derive(Clone, Copy, PartialEq, Eq, Debug)]
pub struct Token {
    /// The place of its first byte.
    pub at: u32,
    /// The count of its bytes.
    pub len: u32,
    /// Its line, from 1.
    pub line: u32,
}

/// The tokens of a text, in order.
pub type Tokens = Vec<Token>;
