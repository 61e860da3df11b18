//! Statements that may be an action.

ghost use Rattle.std.specs.Prelude.{◌≡◌, ◌≤◌, ℕ, List, length, nat_lt, false, Some};
ghost use Rattle.par_tree.specs.Tree.{Func, Expr, Name, Body};
ghost use Rattle.node_table.specs.Names.{slot_names, IsSlot};
ghost use Rattle.node_table.specs.Shown.{expr_shown};
ghost use Rattle.node_table.specs.Table.{Table};
ghost use Rattle.node_table.specs.Reading.{IsExpr};
ghost use Rattle.depth_first_list.specs.QuotaWords.{quota_words};
ghost use Rattle.language_limits.specs.declared.TheConstants.{LONGEST_BLOCK};
ghost use Rattle.thread_state.specs.Passed.States.{Setting};
ghost use Rattle.thread_state.specs.Passed.Values.{value};
ghost use Rattle.thread_state.specs.Passed.Run.{free_block};
ghost use Rattle.thread_state.specs.Passed.Middle.{middle, step_with_number, step_alloc, step_alloc_words, step_par};
ghost use Rattle.thread_stack.specs.Frames.{IsParNode};
ghost use Rattle.thread_state.specs.Passed.Rows.{HasBlock, HasNone};
ghost use Rattle.thread_state.specs.States.{own_row};
ghost use Rattle.thread_run.specs.Costs.{done_cost, CostsAtMost};
ghost use Rattle.thread_run.specs.Dones.{Leads, LeadsOrWants};

use crate::done::Done;
use crate::ready::{Forking, Ready};
use crate::simple::fault;
use block_arena::{Shell, pieces_for};
use dag_order::FaultKind;
use depth_first_list::{Quota, Tree, dummies};
use language_limits::{MOST_FORKS, PIECE_WORDS};
use node_table::CodeExpr;
use number_operators::size_of;
use std::alloc::{AllocError, Global};
use thread_stack::{Branch, Frame, ListOf};
use thread_state::ThreadState;

/// `free name;`
pub(crate) fn free(state: &ThreadState, slot: u16) -> Done
    requires going { state.now.faulted ≡ false }
    requires has { HasBlock (own_row state.now) slot }
    ensures meaning { (t : Table) (k : ℕ) (c : Setting) (g : Func) (b : Name) → IsSlot (slot_names g) slot b
        → Leads t k c g state.now result state.now (λ fs s. middle fs (free_block b s)) }
    ensures cost { (t : Table) → done_cost t result ≡ 0 }
{
    let words = state.words_at(slot);
    Done::Acts(Ready::Release { slot, words })
}

/// `par { left } and { right }`
pub(crate) fn both(state: &ThreadState, number: u32, line: u32) -> Done
    ensures meaning { (t : Table) (k : ℕ) (c : Setting) (g : Func) (a b : Body) → IsParNode c.program t (slot_names g) number a b
        → Leads t k c g state.now result state.now (λ fs s. step_par (nat_lt (length s.label) c.most_forks) c line a b fs s) }
    ensures cost { (t : Table) → done_cost t result ≡ 0 }
{
    if state.label().len() < MOST_FORKS {
        let work = Frame::Statements {
            list: ListOf::Left(number),
            next: 0,
        };
        let own = Frame::Statements {
            list: ListOf::Right(number),
            next: 0,
        };
        Done::Acts(Ready::Fork(Forking {
            branch: Branch::Par(number),
            work,
            own,
        }))
    } else {
        fault(FaultKind::Depth, line)
    }
}

/// `alloc name = size;`
///
/// # Errors
///
/// There is not enough memory.
pub(crate) fn allocate(
    state: &ThreadState,
    alloc: Global,
    k: Quota,
    line: u32,
    slot: u16,
    size: &CodeExpr,
) -> Result<Done, AllocError>
    requires going { state.now.faulted ≡ false }
    requires none { HasNone (own_row state.now) slot }
    ensures meaning { (t : Table) (c : Setting) (g : Func) (b : Name) (e : Expr) → IsSlot (slot_names g) slot b
        → IsExpr (slot_names g) (expr_shown size.now) e
        → LeadsOrWants t (quota_words k) c g state.now result state.now
        (λ fs s. step_with_number line (value s.store e) (step_alloc c line b) fs s) }
    ensures cost { (t : Table) → CostsAtMost t 2 result }
{
    match state.evaluate(size) {
        Ok(size) => match size_of(size) {
            Some(len) => allocate_numbers(state, alloc, k, line, slot, len),
            None => Ok(fault(FaultKind::Size, line)),
        },
        Err(kind) => Ok(fault(kind, line)),
    }
}

/// An allocation of so many numbers, at once where the quota covers it, else behind its tree of dummies.
///
/// # Errors
///
/// There is not enough memory.
fn allocate_numbers(
    state: &ThreadState,
    alloc: Global,
    k: Quota,
    line: u32,
    slot: u16,
    len: u32,
) -> Result<Done, AllocError>
    requires none { HasNone (own_row state.now) slot }
    requires small { len ≤ LONGEST_BLOCK }
    ensures meaning { (t : Table) (c : Setting) (g : Func) (b : Name) → IsSlot (slot_names g) slot b
        → LeadsOrWants t (quota_words k) c g state.now result state.now (λ fs s. step_alloc_words c line b (Some len) fs s) }
    ensures cost { (t : Table) → CostsAtMost t 2 result }
{
    let pieces = pieces_for(len);
    match Tree::of(dummies(pieces * PIECE_WORDS, k)) {
        None => {
            let shell = Shell::with_room(alloc, pieces)?;
            Ok(Done::Acts(Ready::Alloc { slot, len, shell }))
        }
        Some(tree) => Ok(Done::Silent {
            first: Some(Frame::Tree(tree)),
            next: Some(Frame::Allocates { slot, len }),
        }),
    }
}
