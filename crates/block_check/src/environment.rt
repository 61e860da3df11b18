//! The visible names, in the order of their declarations.

ghost use Rattle.std.specs.Prelude.{◌≡◌};
ghost use Rattle.std.specs.Option.{option_map};
ghost use Rattle.par_ownership.specs.Environment.{entry_of};
ghost use Rattle.par_ownership.specs.Walk.{unless, fresh_refusal, integer_refusal, block_refusal, lent_refusal};
ghost use Rattle.block_check.specs.Shown.{entry_shown, entries_shown, Tests};

use crate::entry::Entry;
use crate::kind::Kind;
use crate::refusal::{Fail, Refusal, Tested};
use par_ownership::CheckKind;

/// What is declared under a name.
fn entry_of<'a>(env: &[Entry<'a>], name: &[u8]) -> Option<Entry<'a>>
    ensures { option_map entry_shown result ≡ entry_of (entries_shown env.now) name.now }
{
    for entry in env {
        if entry.name == name {
            return Some(*entry);
        }
    }
    None
}

/// Refuses where a test fails.
pub(crate) fn unless<'a>(passed: bool, kind: CheckKind, line: u32, name: &'a [u8]) -> Tested<'a>
    ensures { Tests result (unless passed kind line name.now) }
{
    if passed {
        Ok(())
    } else {
        Err(Fail::Refused(Refusal { kind, line, name }))
    }
}

/// The name of a declaration must not be visible yet.
pub(crate) fn want_fresh<'a>(line: u32, env: &[Entry], name: &'a [u8]) -> Tested<'a>
    ensures { Tests result (fresh_refusal line (entries_shown env.now) name.now) }
{
    unless(
        entry_of(env, name).is_none(),
        CheckKind::Redefined,
        line,
        name,
    )
}

/// A name is read as an integer.
pub(crate) fn want_integer<'a>(line: u32, env: &[Entry], name: &'a [u8]) -> Tested<'a>
    ensures { Tests result (integer_refusal line (entries_shown env.now) name.now) }
{
    match entry_of(env, name) {
        None => unless(false, CheckKind::UnknownName, line, name),
        Some(entry) => unless(!entry.kind.is_block(), CheckKind::WrongKind, line, name),
    }
}

/// A name is read as a block.
pub(crate) fn want_block<'a>(line: u32, env: &[Entry], name: &'a [u8]) -> Tested<'a>
    ensures { Tests result (block_refusal line (entries_shown env.now) name.now) }
{
    match entry_of(env, name) {
        None => unless(false, CheckKind::UnknownName, line, name),
        Some(entry) => {
            unless(entry.kind.is_block(), CheckKind::WrongKind, line, name)?;
            unless(entry.held, CheckKind::Gone, line, name)
        }
    }
}

/// A block that is freed or given away must not be lent.
pub(crate) fn want_not_lent<'a>(line: u32, env: &[Entry], name: &'a [u8]) -> Tested<'a>
    ensures { Tests result (lent_refusal line (entries_shown env.now) name.now) }
{
    match entry_of(env, name) {
        None => Ok(()),
        Some(entry) => unless(entry.kind.is_own(), CheckKind::FreesLent, line, name),
    }
}
