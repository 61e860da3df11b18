use par_text::Kind;

/// A token as the parser reads it: its kind, a number's value, the place of its first byte, the count
/// of its bytes, and its line.
#[derive(Clone, Copy)]
pub struct Lexeme {
    pub kind: Kind,
    pub value: i64,
    pub at: u32,
    pub len: u32,
    pub line: u32,
}
