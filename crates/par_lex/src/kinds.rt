//! The kinds of words and symbols.

ghost use Rattle.std.specs.Prelude.{◌≡◌};
ghost use Rattle.par_text.specs.Lexing.{kind_in, symbol_kind, keyword_kind};
ghost use Rattle.par_lex.specs.Tables.{table_shown};

use par_text::Kind;

/// The symbols, each with its kind.
const SYMBOLS: [(&[u8], Kind); 20] = [
    (b"(", Kind::LeftParen),
    (b")", Kind::RightParen),
    (b"{", Kind::LeftBrace),
    (b"}", Kind::RightBrace),
    (b"[", Kind::LeftBracket),
    (b"]", Kind::RightBracket),
    (b",", Kind::Comma),
    (b";", Kind::Semicolon),
    (b"=", Kind::Assign),
    (b"+", Kind::Plus),
    (b"-", Kind::Minus),
    (b"*", Kind::Star),
    (b"/", Kind::Slash),
    (b"%", Kind::Percent),
    (b"<", Kind::Less),
    (b"<=", Kind::LessEqual),
    (b">", Kind::Greater),
    (b">=", Kind::GreaterEqual),
    (b"==", Kind::EqualEqual),
    (b"!=", Kind::NotEqual),
];

/// The keywords, each with its kind.
const KEYWORDS: [(&[u8], Kind); 18] = [
    (b"fn", Kind::Fn),
    (b"let", Kind::Let),
    (b"alloc", Kind::Alloc),
    (b"free", Kind::Free),
    (b"if", Kind::If),
    (b"else", Kind::Else),
    (b"while", Kind::While),
    (b"call", Kind::Call),
    (b"print", Kind::Print),
    (b"par", Kind::Par),
    (b"and", Kind::And),
    (b"split", Kind::Split),
    (b"at", Kind::At),
    (b"into", Kind::Into),
    (b"return", Kind::Return),
    (b"use", Kind::Use),
    (b"own", Kind::Own),
    (b"len", Kind::Len),
];

/// The kind of a word of a table.
fn kind_in(table: &[(&[u8], Kind)], word: &[u8]) -> Option<Kind>
    ensures { result ≡ kind_in (table_shown table.now) word.now }
{
    for entry in table {
        if entry.0 == word {
            return Some(entry.1);
        }
    }
    None
}

/// A symbol.
#[tactic(auto, unfolding(par_text::specs::Lexing::symbol_kind))]
pub(crate) fn symbol_kind(word: &[u8]) -> Option<Kind>
    ensures { result ≡ symbol_kind word.now }
{
    kind_in(&SYMBOLS, word)
}

/// A keyword.
#[tactic(auto, unfolding(par_text::specs::Lexing::keyword_kind))]
pub(crate) fn keyword_kind(word: &[u8]) -> Option<Kind>
    ensures { result ≡ keyword_kind word.now }
{
    kind_in(&KEYWORDS, word)
}
