ghost use Rattle.std.specs.Prelude.{◌≡◌, map, IfOk};
ghost use Rattle.par_text.specs.Lexing.{text_tokens};
ghost use Rattle.par_lex.specs.Places.{lexeme_place, GivesPlaces};

use crate::lexeme::Lexeme;
use crate::lexer::lexemes;
use crate::parse_fail::ParseFail;
use crate::token::{Token, Tokens};
use std::alloc::{AllocError, Global};

/// Where each of these tokens stands.
fn places(alloc: Global, lexemes: &[Lexeme]) -> Result<Tokens, AllocError>
    ensures { IfOk result (λ v. v.items ≡ map lexeme_place lexemes.now) }
{
    lexemes
        .iter()
        .map(|lexeme| Token {
            at: lexeme.at,
            len: lexeme.len,
            line: lexeme.line,
        })
        .collect(alloc)
}

/// Where the tokens of a text stand.
///
/// Bytes that have no tokens are refused as [`parse`](crate::parse) refuses them: `TooLong`,
/// `BadByte`, `BadToken` and `NumberTooLarge`.
pub fn tokens(alloc: Global, text: &[u8]) -> Result<Tokens, ParseFail>
    // The places of the tokens, or the refusal, unless memory runs out.
    ensures { GivesPlaces result (text_tokens text.now) }
{
    let lexemes = lexemes(alloc, text)?;
    Ok(places(alloc, &lexemes)?)
}
