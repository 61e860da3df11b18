ghost use Rattle.std.specs.Prelude.{◌≡◌};

/// The kind of a token, or the end of the text.
#[derive(Clone, Copy)]
pub enum Kind {
    /// No token is left.
    End,
    Name,
    Number,
    LeftParen,
    RightParen,
    LeftBrace,
    RightBrace,
    LeftBracket,
    RightBracket,
    Comma,
    Semicolon,
    Assign,
    Plus,
    Minus,
    Star,
    Slash,
    Percent,
    Less,
    LessEqual,
    Greater,
    GreaterEqual,
    EqualEqual,
    NotEqual,
    Fn,
    Let,
    Alloc,
    Free,
    If,
    Else,
    While,
    Call,
    Print,
    Par,
    And,
    Split,
    At,
    Into,
    Return,
    Use,
    Own,
    Len,
}

impl Kind {
    ghost use Rattle.par_text.specs.Kinds.{is};

    /// Whether this is the other kind.
    pub fn is(self, other: Kind) -> bool
        ensures { result ≡ is other self }
    {
        other as u8 == self as u8
    }
}
