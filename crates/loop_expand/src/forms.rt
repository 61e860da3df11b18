//! The forms of a loop.

ghost use Rattle.std.specs.Prelude.{◌≡◌, List, [], length, map};
ghost use Rattle.loop_expand.specs.Loops.{is_size, next_is, begins_call};
ghost use Rattle.loop_expand.specs.Reading.{read_one, read_size, read_numbers, read_parts, read_range, read_other, read_others};
ghost use Rattle.loop_expand.specs.Reading.{read_target, read_head, read_closing, read_loop};
ghost use Rattle.loop_expand.specs.Gives.{Gives, runs_shown};
ghost use Rattle.loop_expand.specs.View.{head_shown, range_shown, loop_shown};

use crate::found_loop::{Head, Loop, Range};
use crate::read_fail::ReadFail;
use crate::runs::read_run;
use language_limits::{LEAST_QUOTA, LONGEST_BLOCK};
use par_lex::Lexeme;
use par_text::Kind;
use std::alloc::Global;

/// Whether the first token is of this kind.
fn next_is(tokens: &[Lexeme], kind: Kind) -> bool
    ensures { result ≡ next_is kind tokens.now }
{
    match tokens.split_first() {
        None => false,
        Some((token, _)) => token.kind.is(kind),
    }
}

/// Whether the tokens begin with `par call`.
pub(crate) fn begins_call(tokens: &[Lexeme]) -> bool
    ensures { result ≡ begins_call tokens.now }
{
    match tokens.split_first() {
        None => false,
        Some((token, behind)) => token.kind.is(Kind::Par) && next_is(behind, Kind::Call),
    }
}

/// One token of this kind, and the tokens behind it.
fn read_one<'a>(tokens: &'a [Lexeme], kind: Kind) -> Result<(&'a Lexeme, &'a [Lexeme]), ReadFail>
    ensures { Gives (λ x. (x.0.now, x.1.now)) result (read_one kind tokens.now) }
{
    if let Some((token, behind)) = tokens.split_first() {
        if token.kind.is(kind) {
            return Ok((token, behind));
        }
    }
    Err(ReadFail::NoLoop)
}

/// Whether a number is the size of a part.
fn is_size(number: i64) -> bool
    ensures { result ≡ is_size number }
{
    if number < 0 {
        return false;
    }
    let words = number as u64;
    if words < u64::from(LEAST_QUOTA) || words > u64::from(LONGEST_BLOCK) {
        return false;
    }
    words % u64::from(LEAST_QUOTA) == 0
}

/// A number that is the size of a part.
fn read_size(tokens: &[Lexeme]) -> Result<(&Lexeme, &[Lexeme]), ReadFail>
    ensures { Gives (λ x. (x.0.now, x.1.now)) result (read_size tokens.now) }
{
    let (number, rest) = read_one(tokens, Kind::Number)?;
    if is_size(number.value) {
        Ok((number, rest))
    } else {
        Err(ReadFail::NoLoop)
    }
}

/// `E1 into E2`
#[tactic(auto, unfolding(crate::specs::Reading::read_numbers))]
fn read_numbers<'a>(
    alloc: Global,
    tokens: &'a [Lexeme],
) -> Result<(Range<'a>, &'a [Lexeme]), ReadFail>
    ensures { Gives (λ x. (range_shown x.0, x.1.now)) result (read_numbers tokens.now) }
{
    let (low, rest) = read_run(alloc, tokens)?;
    let (_, rest) = read_one(rest, Kind::Into)?;
    let (high, rest) = read_run(alloc, rest)?;
    Ok((Range::Numbers { low, high }, rest))
}

/// `use B at G`
#[tactic(auto, unfolding(crate::specs::Reading::read_parts))]
fn read_parts(tokens: &[Lexeme]) -> Result<(Range<'_>, &[Lexeme]), ReadFail>
    ensures { Gives (λ x. (range_shown x.0, x.1.now)) result (read_parts tokens.now) }
{
    let (_, rest) = read_one(tokens, Kind::Use)?;
    let (block, rest) = read_one(rest, Kind::Name)?;
    let (_, rest) = read_one(rest, Kind::At)?;
    let (most, rest) = read_size(rest)?;
    Ok((Range::Parts { block, most }, rest))
}

/// What a loop goes over.
#[tactic(auto, unfolding(crate::specs::Reading::read_range))]
fn read_range<'a>(
    alloc: Global,
    tokens: &'a [Lexeme],
) -> Result<(Range<'a>, &'a [Lexeme]), ReadFail>
    ensures { Gives (λ x. (range_shown x.0, x.1.now)) result (read_range tokens.now) }
{
    if next_is(tokens, Kind::Use) {
        read_parts(tokens)
    } else {
        read_numbers(alloc, tokens)
    }
}

/// A comma and a run.
#[tactic(auto, unfolding(crate::specs::Reading::read_other))]
fn read_other<'a>(
    alloc: Global,
    tokens: &'a [Lexeme],
) -> Result<(&'a [Lexeme], &'a [Lexeme]), ReadFail>
    ensures { Gives (λ x. (x.0.now, x.1.now)) result (read_other tokens.now) }
{
    let (_, rest) = read_one(tokens, Kind::Comma)?;
    read_run(alloc, rest)
}

/// The further arguments, each behind a comma.
fn read_others<'a>(
    alloc: Global,
    tokens: &'a [Lexeme],
) -> Result<(Vec<&'a [Lexeme]>, &'a [Lexeme]), ReadFail>
    ensures { Gives (λ x. (runs_shown x.0.items, x.1.now)) result (read_others (length tokens.now) tokens.now) }
{
    let mut others = Vec::new(alloc);
    let mut rest = tokens;
    'others: for _ in 0..tokens.len() {
        if !next_is(rest, Kind::Comma) {
            break;
        }
        let (run, behind) = read_other(alloc, rest)?;
        others.push(run)?;
        rest = behind;
    }
    Ok((others, rest))
}

/// `par call X =`
#[tactic(auto, unfolding(crate::specs::Reading::read_target))]
fn read_target(tokens: &[Lexeme]) -> Result<((&Lexeme, &Lexeme), &[Lexeme]), ReadFail>
    ensures { Gives (λ x. ((x.0.0.now, x.0.1.now), x.1.now)) result (read_target tokens.now) }
{
    let (opening, rest) = read_one(tokens, Kind::Par)?;
    let (_, rest) = read_one(rest, Kind::Call)?;
    let (target, rest) = read_one(rest, Kind::Name)?;
    let (_, rest) = read_one(rest, Kind::Assign)?;
    Ok(((opening, target), rest))
}

/// `par call X = F (`
#[tactic(auto, unfolding(crate::specs::Reading::read_head))]
fn read_head(tokens: &[Lexeme]) -> Result<(Head<'_>, &[Lexeme]), ReadFail>
    ensures { Gives (λ x. (head_shown x.0, x.1.now)) result (read_head tokens.now) }
{
    let ((opening, target), rest) = read_target(tokens)?;
    let (function, rest) = read_one(rest, Kind::Name)?;
    let (_, rest) = read_one(rest, Kind::LeftParen)?;
    Ok((
        Head {
            opening,
            target,
            function,
        },
        rest,
    ))
}

/// `) ;`
#[tactic(auto, unfolding(crate::specs::Reading::read_closing))]
fn read_closing(tokens: &[Lexeme]) -> Result<(&Lexeme, &[Lexeme]), ReadFail>
    ensures { Gives (λ x. (x.0.now, x.1.now)) result (read_closing tokens.now) }
{
    let (_, rest) = read_one(tokens, Kind::RightParen)?;
    read_one(rest, Kind::Semicolon)
}

/// The loop that stands first, and the tokens behind it.
#[tactic(auto, unfolding(crate::specs::Reading::read_loop))]
pub(crate) fn read_loop<'a>(
    alloc: Global,
    tokens: &'a [Lexeme],
) -> Result<(Loop<'a>, &'a [Lexeme]), ReadFail>
    ensures { Gives (λ x. (loop_shown x.0, x.1.now)) result (read_loop tokens.now) }
{
    let (head, rest) = read_head(tokens)?;
    let (range, rest) = read_range(alloc, rest)?;
    let (others, rest) = read_others(alloc, rest)?;
    let (closing, rest) = read_closing(rest)?;
    Ok((
        Loop {
            head,
            range,
            others,
            closing,
        },
        rest,
    ))
}
