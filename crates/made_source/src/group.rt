ghost use Rattle.std.specs.Prelude.{◌≡◌, ◌++◌, ◌<◌, OnOk, string_bytes};
ghost use Rattle.made_source.specs.MadeSource.{line, branch, left_length, right_length, group_line};

use language_limits::MOST_GROUPS;
use std::alloc::AllocError;

/// How many lengths the blocks of groups have: 1 to 400.
const LENGTHS: u32 = 400;

/// The length of the block in the left branch of a group.
fn left_length(group: u32) -> u32
    requires { group < MOST_GROUPS }
    ensures { result ≡ left_length group }
{
    1 + (37 * group) % LENGTHS
}

/// The length of the block in the right branch of a group.
fn right_length(group: u32) -> u32
    requires { group < MOST_GROUPS }
    ensures { result ≡ right_length group }
{
    1 + (53 * group) % LENGTHS
}

/// Writes a branch of a group at the end of the text: its block has this name and length.
#[tactic(auto, unfolding(crate::specs::MadeSource::branch))]
fn push_branch(text: &mut String, name: &str, length: u32, group: u32) -> Result<(), AllocError>
    ensures { OnOk result (string_bytes text.new ≡ string_bytes text.old ++ branch name.now length group) }
{
    write!(text, "{{ alloc {name} = {length}; ")?;
    write!(text, "{name}[0] = {group}; ")?;
    write!(text, "print {name}[0]; free {name}; }}")
}

/// Writes the line of a group at the end of the text.
#[tactic(auto, unfolding(crate::specs::MadeSource::group_line))]
pub(crate) fn push_group(text: &mut String, group: u32) -> Result<(), AllocError>
    requires { group < MOST_GROUPS }
    ensures { OnOk result (string_bytes text.new ≡ string_bytes text.old ++ line (group_line group)) }
{
    text.push_str("par ")?;
    push_branch(text, "a", left_length(group), group)?;
    text.push_str(" and ")?;
    push_branch(text, "b", right_length(group), group)?;
    text.push_str("\n")
}
