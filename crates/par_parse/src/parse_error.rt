ghost use Rattle.std.specs.Prelude.{◌≡◌};
ghost use Rattle.par_parse.specs.declared.parse_error.ParseError.TheVariants.{Memory};

use par_lex::Lexeme;
use par_text::Stop;
use std::alloc::{AllocError, AllocFailed};

/// What the first tokens make, and the tokens after them.
pub(crate) type Parsed<'a, T> = Result<(T, &'a [Lexeme]), ParseError>;

/// Why no tree is read, and at how many tokens before the end.
#[derive(Drop)]
pub(crate) enum ParseError {
    Memory,
    Stopped { stop: Stop, left: usize },
}

impl From<AllocError> for ParseError {
    ghost from_gives = { λ _ e. e ≡ Memory };

    fn from(_e: AllocError) -> ParseError {
        ParseError::Memory
    }
}

impl<T: Drop> From<AllocFailed<T>> for ParseError {
    ghost from_gives = { λ _ e. e ≡ Memory };

    fn from(_e: AllocFailed<T>) -> ParseError {
        ParseError::Memory
    }
}
