ghost use Rattle.std.specs.Prelude.{◌≡◌, ◌++◌, ◌≤◌, ◌*◌, ◌+◌, ◌<◌, IfOk, OnOk, length, map, string_bytes};
ghost use Rattle.language_limits.specs.declared.TheConstants.{LONGEST_TEXT};
ghost use Rattle.std.specs.List.{flat_map, range_with_len};
ghost use Rattle.made_source.specs.MadeSource.{text_of, function_lines, call_line, main_lines, made_source};

use crate::function::{FUNCTION_GROUPS, push_call, push_function};
use language_limits::MOST_GROUPS;
use std::alloc::{AllocError, Global};

/// Writes the first functions of a source with so many groups at the end of the text. Each of them has a group.
fn push_functions(text: &mut String, groups: u32, functions: u32) -> Result<(), AllocError>
    requires some { 64 * functions < groups + 64 }
    requires most { groups ≤ MOST_GROUPS }
    ensures { OnOk result
        (string_bytes text.new ≡ string_bytes text.old ++ text_of (flat_map (function_lines groups) (range_with_len 0 functions))) }
{
    'functions: for function in 0..functions {
        push_function(text, groups, function)?;
    }
    Ok(())
}

/// Writes the calls of the first functions, in order, at the end of the text.
fn push_calls(text: &mut String, functions: u32) -> Result<(), AllocError>
    ensures { OnOk result (string_bytes text.new ≡ string_bytes text.old ++ text_of (map call_line (range_with_len 0 functions))) }
{
    'calls: for function in 0..functions {
        push_call(text, function)?;
    }
    Ok(())
}

/// Writes `main`, which calls so many functions, at the end of the text.
#[tactic(auto, unfolding(crate::specs::MadeSource::main_lines))]
fn push_main(text: &mut String, functions: u32) -> Result<(), AllocError>
    ensures { OnOk result (string_bytes text.new ≡ string_bytes text.old ++ text_of (main_lines (range_with_len 0 functions))) }
{
    text.push_str("fn main() {\n")?;
    push_calls(text, functions)?;
    text.push_str("}\n")?;
    Ok(())
}

/// The made source of so many groups. It is no longer than a text may be.
pub fn made_source(alloc: Global, groups: u32) -> Result<Vec<u8>, AllocError>
    requires least { 1 ≤ groups }
    requires most { groups ≤ MOST_GROUPS }
    ensures spelled { IfOk result (λ text. text.items ≡ made_source groups) }
    ensures fits { IfOk result (λ text. length text.items ≤ LONGEST_TEXT) }
{
    let functions = groups.div_ceil(FUNCTION_GROUPS);
    let mut text = String::new(alloc);
    push_functions(&mut text, groups, functions)?;
    push_main(&mut text, functions)?;
    Ok(text.into_bytes())
}
