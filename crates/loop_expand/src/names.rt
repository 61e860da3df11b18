//! The names of helpers.

ghost use Rattle.std.specs.Prelude.{◌≡◌, ◌<◌, ◌^◌, ◌↔◌, ℕ, List, [], ◌∷◌, length, Some, IfOk, IsTrue};
ghost use Rattle.std.specs.Fmt.{decimal};
ghost use Rattle.loop_expand.specs.Texts.{sum_name};
ghost use Rattle.loop_expand.specs.Expansion.{IsTaken};
ghost use Rattle.loop_expand.specs.Answers.{FindsFirst};

use crate::places::bytes_of;
use byte_cuts::behind;
use par_lex::Lexeme;
use par_text::Kind;
use std::alloc::{AllocError, Global};

/// What the names of helpers begin with.
const SUM: &[u8] = b"__sum";

/// The name of the helper of the loop with this number.
pub(crate) fn sum_name(alloc: Global, number: usize) -> Result<Vec<u8>, AllocError>
    ensures { IfOk result (λ name. name.items ≡ sum_name number) }
{
    let digits = format!(in alloc; "{number}")?;
    let mut name = Vec::from_slice(alloc, SUM)?;
    name.extend_from_slice(digits.as_bytes())?;
    Ok(name)
}

/// The number that these digits write, if they write one.
fn number_of(digits: &[u8]) -> Option<usize>
    ensures { (n : ℕ) → n < 2 ^ 64 → digits.now ≡ decimal n → result ≡ Some n }
{
    let Ok(text) = str::from_utf8(digits) else {
        return None;
    };
    text.parse::<usize>().ok()
}

/// Whether the helper of one of so many loops has this name.
fn is_sum_name(alloc: Global, name: &[u8], count: usize) -> Result<bool, AllocError>
    ensures { IfOk result (λ taken. IsTrue taken ↔ ((j : ℕ) × (j < count) × (name.now ≡ sum_name j))) }
{
    let Some(digits) = behind(name, SUM) else {
        return Ok(false);
    };
    let Some(number) = number_of(digits) else {
        return Ok(false);
    };
    if number >= count {
        return Ok(false);
    }
    let own = sum_name(alloc, number)?;
    Ok(own.as_slice() == name)
}

/// Whether a token is a name that the helper of one of so many loops has.
fn is_taken(alloc: Global, text: &[u8], token: &Lexeme, count: usize) -> Result<bool, AllocError>
    ensures { IfOk result (λ taken. (behind : List Lexeme) → IsTrue taken ↔ IsTaken text.now count (token.now ∷ behind)) }
{
    if !token.kind.is(Kind::Name) {
        return Ok(false);
    }
    is_sum_name(alloc, bytes_of(text, token), count)
}

/// The place of the first name that the helper of one of so many loops has.
pub(crate) fn find_taken(
    alloc: Global,
    text: &[u8],
    tokens: &[Lexeme],
    count: usize,
) -> Result<Option<u32>, AllocError>
    ensures { IfOk result (λ found. FindsFirst found (IsTaken text.now count) tokens.now) }
{
    let mut rest = tokens;
    'tokens: while let Some((token, behind)) = rest.split_first() {
        if is_taken(alloc, text, token, count)? {
            return Ok(Some(token.at));
        }
        rest = behind;
    }
    Ok(None)
}
