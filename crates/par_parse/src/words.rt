//! The steps that look at a token.

ghost use Rattle.std.specs.Prelude.{◌≡◌, ◌+◌, ℕ, List, length, take, drop, IfOk};
ghost use Rattle.par_text.specs.Reading.{next, read_token, read_open};
ghost use Rattle.par_text.specs.Grammar.{name, name_of};
ghost use Rattle.par_text.specs.Parsing.{read};
ghost use Rattle.par_tree.specs.View.{name_tree, expr_tree};
ghost use Rattle.par_text.specs.Rule.{Token};
ghost use Rattle.par_lex.specs.Words.{words, word_of};
ghost use Rattle.par_parse.specs.Gives.{Gives, Inside};

use crate::parse_error::{ParseError, Parsed};
use par_lex::Lexeme;
use par_text::{Kind, Stop};
use par_tree::{Expr, Name};
use std::alloc::{AllocError, Global};

/// The kind of the next token.
#[tactic(auto, unfolding(par_lex::specs::Words::words))]
pub(crate) fn peek(tokens: &[Lexeme]) -> Kind
    ensures { (text : List ℕ) → result ≡ next (words text tokens.now) }
{
    match tokens.split_first() {
        None => Kind::End,
        Some((token, _)) => token.kind,
    }
}

/// One token of this kind.
#[tactic(auto, unfolding(par_lex::specs::Words::words))]
pub(crate) fn take<'a>(tokens: &'a [Lexeme], kind: Kind) -> Parsed<'a, &'a Lexeme>
    ensures { (text : List ℕ) → Gives (λ x. (word_of text x.0.now, words text x.1.now)) result (read_token kind (words text tokens.now)) }
{
    if let Some((token, rest)) = tokens.split_first() {
        if token.kind.is(kind) {
            return Ok((token, rest));
        }
    }
    Err(ParseError::Stopped {
        stop: Stop::Expected,
        left: tokens.len(),
    })
}

/// A value that was read, with one token of this kind after it. Where there is no such token, the value is dropped here: for its
/// type as a parameter that is one call.
pub(crate) fn followed<'a, T: Drop>(
    value: T,
    tokens: &'a [Lexeme],
    kind: Kind,
) -> Parsed<'a, (T, &'a Lexeme)>
    ensures gives { (text : List ℕ) → Gives (λ x. (word_of text x.0.1.now, words text x.1.now)) result
        (read_token kind (words text tokens.now)) }
    ensures same { IfOk result (λ x. x.0.0 ≡ value) }
{
    let (token, rest) = take(tokens, kind)?;
    Ok(((value, token), rest))
}

/// One token of this kind, which opens a construct; with how many more may open inside.
#[tactic(auto, unfolding(par_lex::specs::Words::words))]
pub(crate) fn open<'a>(depth: u32, tokens: &'a [Lexeme], kind: Kind) -> Parsed<'a, u32>
    ensures gives { (text : List ℕ) → Gives (λ x. (x.0, words text x.1.now)) result (read_open depth kind (words text tokens.now)) }
    ensures less { IfOk result (λ x. x.0 + 1 ≡ depth) }
    ensures inside { IfOk result (λ x. (ts : List Token) → Inside depth x.0 ts) }
{
    let (_, rest) = take(tokens, kind)?;
    if depth == 0 {
        return Err(ParseError::Stopped {
            stop: Stop::TooDeep,
            left: tokens.len(),
        });
    }
    Ok((depth - 1, rest))
}

/// A name.
#[tactic(auto, unfolding(par_lex::specs::Words::words, par_text::specs::Grammar::name))]
pub(crate) fn name<'a>(alloc: Global, text: &[u8], tokens: &'a [Lexeme]) -> Parsed<'a, Name>
    ensures { (n : ℕ) → Gives (λ x. (name_tree x.0, words text.now x.1.now)) result (read n name (words text.now tokens.now)) }
{
    let (token, rest) = take(tokens, Kind::Name)?;
    Ok((name_from(alloc, text, token)?, rest))
}

/// The name that the bytes of a token of this text are.
pub(crate) fn name_from(alloc: Global, text: &[u8], token: &Lexeme) -> Result<Name, AllocError>
    ensures { IfOk result (λ x. name_tree x ≡ name_of (word_of text.now token.now)) }
{
    let bytes = Vec::from_slice(alloc, bytes_of(text, token))?;
    Ok(Name { bytes })
}

/// The bytes of a token of this text.
fn bytes_of<'a>(text: &'a [u8], token: &Lexeme) -> &'a [u8]
    ensures { result.now ≡ take token.now.len (drop token.now.at text.now) }
{
    let start = (token.at as usize).min(text.len());
    let (_, behind) = text.split_at(start);
    let len = (token.len as usize).min(behind.len());
    let (bytes, _) = behind.split_at(len);
    bytes
}
