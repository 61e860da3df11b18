//! Runs of tokens.

ghost use Rattle.std.specs.Prelude.{◌≡◌, ◌≤◌, List, [], length, reverse, IfOk};
ghost use Rattle.loop_expand.specs.Reading.{passes, closed, turn, scan, read_run};
ghost use Rattle.loop_expand.specs.Gives.{Gives, GivesTurn};

use crate::kinds::{closer, is_inner, is_plain};
use crate::read_fail::ReadFail;
use par_lex::Lexeme;
use par_text::Kind;
use std::alloc::Global;

/// Whether a token of this kind passes, where these brackets are open, the innermost last.
fn passes(brackets: &Vec<Kind>, kind: Kind) -> bool
    ensures { result ≡ passes (reverse brackets.now.items) kind }
{
    if brackets.is_empty() {
        is_plain(kind)
    } else {
        is_inner(kind)
    }
}

/// Closes the innermost bracket. Whether one is open.
fn close(brackets: &mut Vec<Kind>, kind: Kind) -> Result<bool, ReadFail>
    ensures { GivesTurn result (reverse brackets.new.items) (closed (reverse brackets.old.items) kind) }
{
    let Some(innermost) = brackets.pop() else {
        return Ok(false);
    };
    if kind.is(innermost) {
        Ok(true)
    } else {
        Err(ReadFail::NoLoop)
    }
}

/// Takes one more token of this kind to a run in which these brackets are open. Whether the run goes on.
fn turn(brackets: &mut Vec<Kind>, kind: Kind) -> Result<bool, ReadFail>
    ensures { GivesTurn result (reverse brackets.new.items) (turn (reverse brackets.old.items) kind) }
{
    if passes(brackets, kind) {
        return Ok(true);
    }
    match closer(kind) {
        Some(closing) => {
            brackets.push(closing)?;
            Ok(true)
        }
        None => close(brackets, kind),
    }
}

/// How many tokens the run has that stands first.
fn run_length(alloc: Global, tokens: &[Lexeme]) -> Result<usize, ReadFail>
    ensures count { Gives (λ n. n) result (scan tokens.now []) }
    ensures within { IfOk result (λ n. n ≤ length tokens.now) }
{
    let mut brackets = Vec::new(alloc);
    let mut count = 0;
    let mut rest = tokens;
    'tokens: while let Some((token, behind)) = rest.split_first() {
        if !turn(&mut brackets, token.kind)? {
            return Ok(count);
        }
        count += 1;
        rest = behind;
    }
    if brackets.is_empty() {
        Ok(count)
    } else {
        Err(ReadFail::NoLoop)
    }
}

/// The run that stands first, and the tokens behind it.
#[tactic(auto, unfolding(crate::specs::Reading::read_run))]
pub(crate) fn read_run<'a>(
    alloc: Global,
    tokens: &'a [Lexeme],
) -> Result<(&'a [Lexeme], &'a [Lexeme]), ReadFail>
    ensures { Gives (λ x. (x.0.now, x.1.now)) result (read_run tokens.now) }
{
    let count = run_length(alloc, tokens)?;
    if count == 0 {
        return Err(ReadFail::NoLoop);
    }
    Ok(tokens.split_at(count))
}
