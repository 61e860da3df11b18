//! The texts that stand for a loop.

ghost use Rattle.std.specs.Prelude.{◌≡◌, ◌++◌, ◌∷◌, [], IfOk, length, map, codes};
ghost use Rattle.std.specs.List.{flat_map, filter};
ghost use Rattle.canonical_text.specs.Canonical.{◌⊕◌, behind_comma};
ghost use Rattle.loop_expand.specs.Texts.{spaced, run_text, numbers_arguments, range_text};
ghost use Rattle.loop_expand.specs.Texts.{others_text, callee_text, call_text, is_line_feed, line_feeds};
ghost use Rattle.loop_expand.specs.Gives.{run_shown, runs_shown};
ghost use Rattle.loop_expand.specs.View.{range_shown, loop_shown};

use crate::found_loop::{Loop, Range};
use crate::names::sum_name;
use crate::pieces::write_all;
use crate::places::{between, bytes_of, place_behind};
use par_lex::Lexeme;
use std::alloc::{AllocError, Global};

/// Tokens, with a space before each.
fn write_spaced(text: &[u8], tokens: &[Lexeme], out: &mut Vec<u8>) -> Result<(), AllocError>
    ensures { IfOk result (λ _. out.new.items ≡ out.old.items ++ flat_map (spaced text.now) tokens.now) }
{
    'tokens: for token in tokens {
        out.extend_from_slice(b" ")?;
        out.extend_from_slice(bytes_of(text, token))?;
    }
    Ok(())
}

/// The tokens of a run, joined by one space.
fn write_run(text: &[u8], run: &[Lexeme], out: &mut Vec<u8>) -> Result<(), AllocError>
    ensures { IfOk result (λ _. out.new.items ≡ out.old.items ++ run_text text.now run.now) }
{
    let Some((first, rest)) = run.split_first() else {
        return Ok(());
    };
    out.extend_from_slice(bytes_of(text, first))?;
    write_spaced(text, rest, out)
}

/// `(E1), (E2) - (E1)`
fn write_numbers(
    text: &[u8],
    low: &[Lexeme],
    high: &[Lexeme],
    out: &mut Vec<u8>,
) -> Result<(), AllocError>
    ensures { IfOk result (λ _.
        out.new.items ≡ out.old.items ++ numbers_arguments (run_text text.now low.now) (run_text text.now high.now)) }
{
    out.extend_from_slice(b"(")?;
    write_run(text, low, out)?;
    out.extend_from_slice(b"), (")?;
    write_run(text, high, out)?;
    out.extend_from_slice(b") - (")?;
    write_run(text, low, out)?;
    out.extend_from_slice(b")")
}

/// The first arguments of a call.
fn write_range(text: &[u8], range: &Range<'_>, out: &mut Vec<u8>) -> Result<(), AllocError>
    ensures { IfOk result (λ _. out.new.items ≡ out.old.items ++ range_text text.now (range_shown range.now)) }
{
    match range {
        Range::Numbers { low, high } => write_numbers(text, low, high, out),
        Range::Parts { block, most: _ } => {
            out.extend_from_slice(b"use ")?;
            out.extend_from_slice(bytes_of(text, block))
        }
    }
}

/// The further arguments of a call, each behind a comma.
fn write_others(text: &[u8], others: &[&[Lexeme]], out: &mut Vec<u8>) -> Result<(), AllocError>
    ensures { IfOk result (λ _. out.new.items ≡ out.old.items ++ others_text text.now (runs_shown others.now)) }
{
    'others: for run in others {
        out.extend_from_slice(b", ")?;
        write_run(text, run, out)?;
    }
    Ok(())
}

/// `call X = __sumJ(`
fn write_callee(
    alloc: Global,
    text: &[u8],
    number: usize,
    target: &Lexeme,
    out: &mut Vec<u8>,
) -> Result<(), AllocError>
    ensures { IfOk result (λ _. out.new.items ≡ out.old.items ++ callee_text text.now number target.now) }
{
    let name = sum_name(alloc, number)?;
    write_all(
        &[b"call ", bytes_of(text, target), b" = ", &name, b"("],
        out,
    )
}

/// The call of the loop with this number.
pub(crate) fn write_call(
    alloc: Global,
    text: &[u8],
    number: usize,
    found: &Loop<'_>,
    out: &mut Vec<u8>,
) -> Result<(), AllocError>
    ensures { IfOk result (λ _. out.new.items ≡ out.old.items ++ call_text text.now number (loop_shown found.now)) }
{
    write_callee(alloc, text, number, found.head.target, out)?;
    write_range(text, &found.range, out)?;
    write_others(text, &found.others, out)?;
    out.extend_from_slice(b");")
}

/// The line feeds among these bytes.
fn write_line_feeds(bytes: &[u8], out: &mut Vec<u8>) -> Result<(), AllocError>
    ensures { IfOk result (λ _. out.new.items ≡ out.old.items ++ filter is_line_feed bytes.now) }
{
    'bytes: for byte in bytes {
        if *byte == b'\n' {
            out.push(b'\n')?;
        }
    }
    Ok(())
}

/// The line feeds that stand in a loop.
pub(crate) fn write_feeds_of(
    text: &[u8],
    found: &Loop<'_>,
    out: &mut Vec<u8>,
) -> Result<(), AllocError>
    ensures { IfOk result (λ _. out.new.items ≡ out.old.items ++ line_feeds text.now (loop_shown found.now)) }
{
    let from = found.head.opening.at as usize;
    let to = place_behind(found.closing);
    write_line_feeds(between(text, from, to), out)
}
