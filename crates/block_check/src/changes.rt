//! What statements do to the visible names.

ghost use Rattle.std.specs.Prelude.{◌≡◌, Ok, map, drop};
ghost use Rattle.par_ownership.specs.Environment.{with_entry, marked, held_in_both, is_released, param_entry, integer_entry, block_entry, lent_entry};
ghost use Rattle.par_ownership.specs.Walk.{ended, end_refusal, arms_refusal};
ghost use Rattle.par_tree.specs.View.{param_tree};
ghost use Rattle.block_check.specs.Shown.{entry_shown, entries_shown, env_shown, Tests, Walks};

use crate::entry::Entry;
use crate::environment::unless;
use crate::kind::Kind;
use crate::refusal::{Tested, Walked};
use par_ownership::CheckKind;
use par_tree::{Param, ParamKind};
use std::alloc::Global;

/// A new integer.
pub(crate) fn integer_entry<'a>(name: &'a [u8], line: u32) -> Entry<'a>
    ensures { entry_shown result ≡ integer_entry name.now line }
{
    Entry {
        name,
        kind: Kind::Integer,
        held: false,
        line,
    }
}

/// A new block of the function's own.
pub(crate) fn block_entry<'a>(name: &'a [u8], line: u32) -> Entry<'a>
    ensures { entry_shown result ≡ block_entry name.now line }
{
    Entry {
        name,
        kind: Kind::Own,
        held: true,
        line,
    }
}

/// A block that is lent.
pub(crate) fn lent_entry<'a>(name: &'a [u8], line: u32) -> Entry<'a>
    ensures { entry_shown result ≡ lent_entry name.now line }
{
    Entry {
        name,
        kind: Kind::Lent,
        held: true,
        line,
    }
}

/// What a parameter declares.
pub(crate) fn param_entry<'a>(param: &'a Param, line: u32) -> Entry<'a>
    ensures { entry_shown result ≡ param_entry (param_tree param.now) line }
{
    match param.kind {
        ParamKind::Int => integer_entry(&param.name.bytes, line),
        ParamKind::Lent => lent_entry(&param.name.bytes, line),
        ParamKind::Owned => block_entry(&param.name.bytes, line),
    }
}

/// Declares a name behind the others.
pub(crate) fn with_entry<'a>(mut env: Vec<Entry<'a>>, entry: Entry<'a>) -> Walked<'a>
    ensures { Walks env_shown result (Ok (with_entry (env_shown env.entry) (entry_shown entry.entry))) }
{
    env.push(entry)?;
    Ok(env)
}

/// The same names once more.
pub(crate) fn copy_of<'a>(alloc: Global, env: &[Entry<'a>]) -> Walked<'a>
    ensures { Walks env_shown result (Ok (entries_shown env.now)) }
{
    Ok(env.iter().copied().collect(alloc)?)
}

/// A block is held, or gone, from now on.
pub(crate) fn mark(env: &mut [Entry], name: &[u8], held: bool)
    ensures { entries_shown env.new ≡ map (marked name.now held) (entries_shown env.old) }
{
    for entry in env.iter_mut() {
        *entry = entry.marked(name, held);
    }
}

/// The names of both, each block held where it is held in both.
pub(crate) fn held_in_both<'a>(alloc: Global, left: &[Entry<'a>], right: &[Entry]) -> Walked<'a>
    ensures { Walks env_shown result (Ok (held_in_both (entries_shown left.now) (entries_shown right.now))) }
{
    let mut both = Vec::new(alloc);
    for i in 0..left.len().min(right.len()) {
        both.push(left[i].held_also(right[i].held))?;
    }
    Ok(both)
}

/// Refuses the first owned block behind the visible names that is still held where its list ends.
pub(crate) fn all_released<'a>(visible: usize, env: &[Entry<'a>]) -> Tested<'a>
    ensures { Tests result (end_refusal (drop visible (entries_shown env.now))) }
{
    for i in visible..env.len() {
        let entry = env[i];
        let released = !(entry.kind.is_own() && entry.held);
        unless(released, CheckKind::NotFreed, entry.line, entry.name)?;
    }
    Ok(())
}

/// The end of a list that began with so many visible names.
pub(crate) fn ended<'a>(visible: usize, mut env: Vec<Entry<'a>>) -> Walked<'a>
    ensures { Walks env_shown result (ended visible (Ok (env_shown env.entry))) }
{
    all_released(visible, &env)?;
    env.truncate(visible);
    Ok(env)
}

/// Refuses the first block that is held on one side alone.
pub(crate) fn same_held<'a>(line: u32, env: &[Entry<'a>], other: &[Entry]) -> Tested<'a>
    ensures { Tests result (arms_refusal line (entries_shown env.now) (entries_shown other.now)) }
{
    for i in 0..env.len().min(other.len()) {
        let entry = env[i];
        unless(
            entry.held == other[i].held,
            CheckKind::ArmsDiffer,
            line,
            entry.name,
        )?;
    }
    Ok(())
}
