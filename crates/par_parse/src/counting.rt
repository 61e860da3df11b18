//! The first token that is one function or one declared name too many.

ghost use Rattle.std.specs.Prelude.{◌≡◌, ℕ, List};
ghost use Rattle.par_text.specs.Counts.{crowded};
ghost use Rattle.par_lex.specs.Words.{words};

use crate::before::{Before, after, is_too_many};
use par_lex::Lexeme;
use par_text::Kind;

/// The place of this token among the tokens.
pub(crate) fn crowded(lexemes: &[Lexeme]) -> Option<usize>
    ensures { (text : List ℕ) → result ≡ crowded (words text lexemes.now) }
{
    let mut before = Before {
        functions: 0,
        names: 0,
        in_header: false,
        last: Kind::End,
        second: Kind::End,
        third: Kind::End,
    };
    let mut index = 0usize;
    let mut rest = lexemes;
    'tokens: while let Some((first, behind)) = rest.split_first() {
        before = after(&before, first.kind);
        if is_too_many(&before) {
            return Some(index);
        }
        index += 1;
        rest = behind;
    }
    None
}
