//! The text in which loops are replaced, and the helpers behind it.

ghost use Rattle.std.specs.Prelude.{◌≡◌, ◌++◌, IfOk, map};
ghost use Rattle.loop_expand.specs.Expansion.{replaced, helper_lines, helpers, expansion};
ghost use Rattle.loop_expand.specs.View.{loops_shown};

use crate::found_loop::Loop;
use crate::helpers::write_helper;
use crate::places::{between, place_behind};
use crate::texts::{write_call, write_feeds_of};
use std::alloc::{AllocError, Global};

/// The text, where each loop is replaced by its call.
fn write_replaced(
    alloc: Global,
    text: &[u8],
    loops: &[Loop<'_>],
    out: &mut Vec<u8>,
) -> Result<(), AllocError>
    ensures { IfOk result (λ _. out.new.items ≡ out.old.items ++ replaced text.now (loops_shown loops.now)) }
{
    let mut from = 0usize;
    'loops: for number in 0..loops.len() {
        let found = &loops[number];
        let to = found.head.opening.at as usize;
        out.extend_from_slice(between(text, from, to))?;
        write_call(alloc, text, number, found, out)?;
        write_feeds_of(text, found, out)?;
        from = place_behind(found.closing);
    }
    out.extend_from_slice(between(text, from, text.len()))
}

/// The helpers of the loops, each on a line.
fn write_helper_lines(
    alloc: Global,
    text: &[u8],
    loops: &[Loop<'_>],
    out: &mut Vec<u8>,
) -> Result<(), AllocError>
    ensures { IfOk result (λ _. out.new.items ≡ out.old.items ++ helper_lines text.now 0 (loops_shown loops.now)) }
{
    'loops: for number in 0..loops.len() {
        write_helper(alloc, text, number, &loops[number], out)?;
        out.extend_from_slice(b"\n")?;
    }
    Ok(())
}

/// What follows the text: nothing, where it has no loop.
fn write_helpers(
    alloc: Global,
    text: &[u8],
    loops: &[Loop<'_>],
    out: &mut Vec<u8>,
) -> Result<(), AllocError>
    ensures { IfOk result (λ _. out.new.items ≡ out.old.items ++ helpers text.now (loops_shown loops.now)) }
{
    if loops.is_empty() {
        return Ok(());
    }
    out.extend_from_slice(b"\n")?;
    write_helper_lines(alloc, text, loops, out)
}

/// The expansion of a text with these loops.
pub(crate) fn expansion(
    alloc: Global,
    text: &[u8],
    loops: &[Loop<'_>],
) -> Result<Vec<u8>, AllocError>
    ensures { IfOk result (λ out. out.items ≡ expansion text.now (loops_shown loops.now)) }
{
    let mut out = Vec::new(alloc);
    write_replaced(alloc, text, loops, &mut out)?;
    write_helpers(alloc, text, loops, &mut out)?;
    Ok(out)
}
