ghost use Rattle.std.specs.Prelude.{◌≡◌, ◌++◌, ◌-◌, ◌*◌, ◌<◌, ◌≤◌, map, OnOk, string_bytes};
ghost use Rattle.std.specs.List.{range_with_len};
ghost use Rattle.made_source.specs.MadeSource.{line, text_of, group_line, function_lines, call_line};

use crate::group::push_group;
use language_limits::MOST_GROUPS;
use std::alloc::AllocError;

/// How many groups a function has; the last one has what is left.
pub(crate) const FUNCTION_GROUPS: u32 = 64;

/// Writes the lines of the groups from the first to the one before the end at the end of the text.
fn push_groups(text: &mut String, first: u32, end: u32) -> Result<(), AllocError>
    requires rising { first ≤ end }
    requires most { end ≤ MOST_GROUPS }
    ensures { OnOk result (string_bytes text.new ≡ string_bytes text.old ++ text_of (map group_line (range_with_len first (end - first)))) }
{
    'groups: for group in first..end {
        push_group(text, group)?;
    }
    Ok(())
}

/// Writes a function of a source with so many groups at the end of the text.
#[tactic(auto, unfolding(crate::specs::MadeSource::function_lines))]
pub(crate) fn push_function(text: &mut String, groups: u32, function: u32) -> Result<(), AllocError>
    requires some { 64 * function < groups }
    requires most { groups ≤ MOST_GROUPS }
    ensures { OnOk result (string_bytes text.new ≡ string_bytes text.old ++ text_of (function_lines groups function)) }
{
    let first = FUNCTION_GROUPS * function;
    let end = groups.min(first + FUNCTION_GROUPS);
    writeln!(text, "fn g{function}() {{")?;
    push_groups(text, first, end)?;
    text.push_str("}\n")
}

/// Writes the call of a function at the end of the text.
pub(crate) fn push_call(text: &mut String, function: u32) -> Result<(), AllocError>
    ensures { OnOk result (string_bytes text.new ≡ string_bytes text.old ++ line (call_line function)) }
{
    writeln!(text, "call g{function}();")
}
