ghost use Rattle.std.specs.Prelude.{◌≡◌};
ghost use Rattle.loop_expand.specs.Refusals.{of_lexer};
ghost use Rattle.loop_expand.specs.declared.expand_fail.ExpandFail.TheVariants.{OutOfMemory};

use par_lex::ParseFail;
use par_text::SyntaxError;
use std::alloc::{AllocError, AllocFailed};

/// Why a text has no expansion.
#[derive(Drop)]
pub enum ExpandFail {
    /// The bytes have no tokens.
    Refused(SyntaxError),
    /// The first `par call` that begins no loop, by the place of its `par`.
    BadLoop { at: u32 },
    /// The first name that the helper of one of the loops has, by its place.
    NameTaken { at: u32 },
    /// Memory is wanting, whatever the bytes are.
    OutOfMemory,
}

impl From<AllocError> for ExpandFail {
    ghost from_gives = { λ _ e. e ≡ OutOfMemory };

    fn from(_e: AllocError) -> ExpandFail {
        ExpandFail::OutOfMemory
    }
}

impl<T: Drop> From<AllocFailed<T>> for ExpandFail {
    ghost from_gives = { λ _ e. e ≡ OutOfMemory };

    fn from(_e: AllocFailed<T>) -> ExpandFail {
        ExpandFail::OutOfMemory
    }
}

impl From<ParseFail> for ExpandFail {
    ghost from_gives = { λ fail e. e ≡ of_lexer fail };

    fn from(fail: ParseFail) -> ExpandFail {
        match fail {
            ParseFail::Refused(error) => ExpandFail::Refused(error),
            ParseFail::OutOfMemory => ExpandFail::OutOfMemory,
        }
    }
}
