//! The branch sets of a `par`.

ghost use Rattle.std.specs.Prelude.{◌≡◌, IfOk, slice_get};
ghost use Rattle.par_tree.specs.View.{name_tree, func_tree};
ghost use Rattle.par_names.specs.Named.{body_of};
ghost use Rattle.block_check.specs.Shown.{entry_shown, entries_shown, funcs_tree};
ghost use Rattle.block_check.specs.Forks.{names_of, takes_block, assigns_integer, names_shown, forks_in_func, fork_at};
ghost use Rattle.block_check.specs.Sought.{fork_shown};
ghost use Rattle.block_check.specs.Sets.{SetsOf, GivesSets};

use crate::branch_sets::{BranchSets, Names};
use crate::entry::Entry;
use crate::fork::Fork;
use crate::mentions::{NamedBody, named};
use crate::search::seek_in_function;
use crate::sets_fail::SetsFail;
use crate::sought::Sought;
use par_tree::{Func, Name};
use std::alloc::{AllocError, Global};

/// Whether a branch names a block.
fn takes_block(branch: &NamedBody, entry: Entry) -> bool
    ensures { result ≡ takes_block (body_of branch.now) (entry_shown entry.entry) }
{
    entry.kind.is_block() && branch.names(entry.name)
}

/// Whether a branch assigns to an integer.
fn assigns_integer(branch: &NamedBody, entry: Entry) -> bool
    ensures { result ≡ assigns_integer (body_of branch.now) (entry_shown entry.entry) }
{
    !entry.kind.is_block() && branch.assigns(entry.name)
}

/// A name of its own.
fn owned(alloc: Global, name: &[u8]) -> Result<Name, AllocError>
    ensures { IfOk result (λ n. name_tree n ≡ name.now) }
{
    Ok(Name {
        bytes: name.to_vec(alloc)?,
    })
}

/// The blocks that a branch names.
fn blocks_named(alloc: Global, names: &[Entry], branch: &NamedBody) -> Result<Names, AllocError>
    ensures { IfOk result (λ v. names_shown v ≡ names_of (takes_block (body_of branch.now)) (entries_shown names.now)) }
{
    let mut found = Vec::new(alloc);
    for entry in names {
        if takes_block(branch, *entry) {
            found.push(owned(alloc, entry.name)?)?;
        }
    }
    Ok(found)
}

/// The integers to which a branch assigns.
fn integers_assigned(
    alloc: Global,
    names: &[Entry],
    branch: &NamedBody,
) -> Result<Names, AllocError>
    ensures { IfOk result (λ v. names_shown v ≡ names_of (assigns_integer (body_of branch.now)) (entries_shown names.now)) }
{
    let mut found = Vec::new(alloc);
    for entry in names {
        if assigns_integer(branch, *entry) {
            found.push(owned(alloc, entry.name)?)?;
        }
    }
    Ok(found)
}

/// The branch sets of a `par`.
fn sets_of(alloc: Global, fork: &Fork) -> Result<BranchSets, AllocError>
    ensures { IfOk result (λ s. SetsOf (fork_shown fork.now) s) }
{
    let left = named(alloc, &fork.names, fork.left)?;
    let right = named(alloc, &fork.names, fork.right)?;
    let left_blocks = blocks_named(alloc, &fork.names, &left)?;
    let right_blocks = blocks_named(alloc, &fork.names, &right)?;
    let left_assigned = integers_assigned(alloc, &fork.names, &left)?;
    Ok(BranchSets {
        left_blocks,
        right_blocks,
        left_assigned,
    })
}

/// The branch sets of a `par` of a function.
fn sets_in(alloc: Global, func: &Func, par: u32) -> Result<BranchSets, SetsFail>
    ensures { GivesSets (slice_get (forks_in_func (func_tree func.now)) par) result }
{
    match seek_in_function(alloc, par, func) {
        Ok(Sought::Found(fork)) => match sets_of(alloc, &fork) {
            Ok(sets) => Ok(sets),
            Err(_) => Err(SetsFail::OutOfMemory),
        },
        Ok(Sought::Passed(_, _)) => Err(SetsFail::NoSuchPar),
        Err(_) => Err(SetsFail::OutOfMemory),
    }
}

/// The branch sets of a `par` of a program.
pub(crate) fn sets_at(
    alloc: Global,
    funcs: &[Func],
    func: u32,
    par: u32,
) -> Result<BranchSets, SetsFail>
    ensures { GivesSets (fork_at (funcs_tree funcs.now) func par) result }
{
    match funcs.get(func as usize) {
        None => Err(SetsFail::NoSuchPar),
        Some(func) => sets_in(alloc, func, par),
    }
}
