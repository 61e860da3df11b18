//! Helpers: the functions that stand for loops behind the text.

ghost use Rattle.std.specs.Prelude.{◌≡◌, ◌++◌, ◌∷◌, [], IfOk, length, map, codes};
ghost use Rattle.canonical_text.specs.Canonical.{◌⊕◌};
ghost use Rattle.loop_expand.specs.Texts.{more_names, numbers_helper, parts_helper, range_helper, helper_text};
ghost use Rattle.loop_expand.specs.View.{range_shown, loop_shown};

use crate::found_loop::{Loop, Range};
use crate::names::sum_name;
use crate::pieces::write_all;
use crate::places::bytes_of;
use std::alloc::{AllocError, Global};

/// `, c1, .., ck`
fn more_names(alloc: Global, count: usize) -> Result<Vec<u8>, AllocError>
    ensures { IfOk result (λ more. more.items ≡ more_names count) }
{
    let mut more = Vec::new(alloc);
    'names: for before in 0..count {
        let number = before + 1;
        let name = format!(in alloc; ", c{number}")?;
        more.extend_from_slice(name.as_bytes())?;
    }
    Ok(more)
}

/// The helper of a loop over numbers.
fn write_numbers_helper(
    sum: &[u8],
    function: &[u8],
    more: &[u8],
    out: &mut Vec<u8>,
) -> Result<(), AllocError>
    ensures { IfOk result (λ _. out.new.items ≡ out.old.items ++ numbers_helper sum.now function.now more.now) }
{
    let pieces: [&[u8]; 17] = [
        b"fn ",
        sum,
        b"(lo, n",
        more,
        b") { let s = 0; if n == 1 { call s = ",
        function,
        b"(lo",
        more,
        b"); } else { if n > 1 { let h = n / 2; let t = 0; par { call s = ",
        sum,
        b"(lo, h",
        more,
        b"); } and { call t = ",
        sum,
        b"(lo + h, n - h",
        more,
        b"); } s = s + t; } } return s; }",
    ];
    write_all(&pieces, out)
}

/// The helper of a loop over the parts of a block.
fn write_parts_helper(
    sum: &[u8],
    function: &[u8],
    most: &[u8],
    more: &[u8],
    out: &mut Vec<u8>,
) -> Result<(), AllocError>
    ensures { IfOk result (λ _. out.new.items ≡ out.old.items ++ parts_helper sum.now function.now most.now more.now) }
{
    let pieces: [&[u8]; 19] = [
        b"fn ",
        sum,
        b"(use b",
        more,
        b") { let n = len(b); let s = 0; if n <= ",
        most,
        b" { call s = ",
        function,
        b"(use b",
        more,
        b"); } else { let h = (n / 2 + 15) / 16 * 16; let t = 0; split b at h into l, r { par { call s = ",
        sum,
        b"(use l",
        more,
        b"); } and { call t = ",
        sum,
        b"(use r",
        more,
        b"); } } s = s + t; } return s; }",
    ];
    write_all(&pieces, out)
}

/// The helper of a loop over this range.
fn write_range_helper(
    text: &[u8],
    range: &Range<'_>,
    sum: &[u8],
    function: &[u8],
    more: &[u8],
    out: &mut Vec<u8>,
) -> Result<(), AllocError>
    ensures { IfOk result (λ _.
        out.new.items ≡ out.old.items ++ range_helper text.now (range_shown range.now) sum.now function.now more.now) }
{
    match range {
        Range::Numbers { low: _, high: _ } => write_numbers_helper(sum, function, more, out),
        Range::Parts { block: _, most } => {
            write_parts_helper(sum, function, bytes_of(text, most), more, out)
        }
    }
}

/// The helper of the loop with this number.
pub(crate) fn write_helper(
    alloc: Global,
    text: &[u8],
    number: usize,
    found: &Loop<'_>,
    out: &mut Vec<u8>,
) -> Result<(), AllocError>
    ensures { IfOk result (λ _. out.new.items ≡ out.old.items ++ helper_text text.now number (loop_shown found.now)) }
{
    let sum = sum_name(alloc, number)?;
    let more = more_names(alloc, found.others.len())?;
    let function = bytes_of(text, found.head.function);
    write_range_helper(text, &found.range, &sum, function, &more, out)
}
