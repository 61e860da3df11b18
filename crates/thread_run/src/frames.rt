//! Frames that are no list of statements.

ghost use Rattle.std.specs.Prelude.{◌≡◌, ℕ, false, IfOk};
ghost use Rattle.thread_state.specs.Passed.Rows.{HasNone};
ghost use Rattle.thread_state.specs.States.{own_row};
ghost use Rattle.node_table.specs.Codes.{code_shown};
ghost use Rattle.thread_stack.specs.Lists.{kind_at};
ghost use Rattle.thread_run.specs.Rejoining.{CanRejoinAt};
ghost use Rattle.node_table.specs.Table.{Table};
ghost use Rattle.thread_run.specs.Steps.{ActsNext, StepsOn};

use crate::ready::{Forking, Ready};
use block_arena::{Shell, pieces_for};
use depth_first_list::Tree;
use node_table::NodeKind;
use std::alloc::{AllocError, Global};
use thread_code::Code;
use thread_stack::{Branch, Frame};
use thread_state::ThreadState;

/// A tree of dummies: one Dummy, or the Fork of a child that runs a half of it.
pub fn dummies(tree: Tree) -> Ready
    ensures { (t : Table) (k : ℕ) (u : ThreadState) → ActsNext t k u (Frame.Tree tree) result }
{
    match tree.halves() {
        None => Ready::Dummy,
        Some((child, own)) => Ready::Fork(Forking {
            branch: Branch::Dummies,
            work: Frame::Tree(child),
            own: Frame::Tree(own),
        }),
    }
}

/// An allocation of `len` numbers behind its dummies.
///
/// # Errors
///
/// There is not enough memory.
pub fn allocates(
    state: &ThreadState,
    alloc: Global,
    slot: u16,
    len: u32,
) -> Result<Ready, AllocError>
    requires { state.now.faulted ≡ false → HasNone (own_row state.now) slot }
    ensures { (t : Table) (k : ℕ) → IfOk result (λ ready. ActsNext t k state.now (Frame.Allocates slot len) ready) }
{
    match Shell::with_room(alloc, pieces_for(len)) {
        Ok(shell) => Ok(Ready::Alloc { slot, len, shell }),
        Err(error) => Err(error),
    }
}

/// The end of the `split` of a node, which a thread that a fault ended skips.
///
/// # Errors
///
/// There is not enough memory. The thread is as it was.
pub fn rejoins(state: &mut ThreadState, code: &Code, number: u32) -> Result<(), AllocError>
    requires { state.old.faulted ≡ false → CanRejoinAt (own_row state.old) (kind_at (code_shown code.now) number) }
    ensures meaning { (k : ℕ) → StepsOn (code_shown code.now) k state.old (Frame.Rejoins number) result state.new }
    ensures turns { state.new.turns ≡ state.old.turns }
{
    let Some(node) = code.node(number) else {
        return Ok(());
    };
    let NodeKind::Split {
        block,
        left,
        right,
        ..
    } = &node.kind
    else {
        return Ok(());
    };
    match state.rejoin(*block, *left, *right) {
        Ok(()) => Ok(()),
        Err(error) => Err(error),
    }
}
