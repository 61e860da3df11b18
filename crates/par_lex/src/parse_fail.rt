ghost use Rattle.std.specs.Prelude.{◌≡◌};
ghost use Rattle.par_lex.specs.declared.parse_fail.ParseFail.TheVariants.{OutOfMemory};

use par_text::SyntaxError;
use std::alloc::{AllocError, AllocFailed};

/// Why a call has no tree or no tokens.
#[derive(Drop)]
pub enum ParseFail {
    /// The bytes are no text.
    Refused(SyntaxError),
    /// Memory is wanting, whatever the bytes are.
    OutOfMemory,
}

impl From<AllocError> for ParseFail {
    ghost from_gives = { λ _ e. e ≡ OutOfMemory };

    fn from(_e: AllocError) -> ParseFail {
        ParseFail::OutOfMemory
    }
}

impl<T: Drop> From<AllocFailed<T>> for ParseFail {
    ghost from_gives = { λ _ e. e ≡ OutOfMemory };

    fn from(_e: AllocFailed<T>) -> ParseFail {
        ParseFail::OutOfMemory
    }
}
