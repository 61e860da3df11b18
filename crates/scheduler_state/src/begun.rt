//! What a run holds at its start.

ghost use Rattle.std.specs.Prelude.{◌≡◌, ◌≤◌, ℕ, IfOk};
ghost use Rattle.node_table.specs.Codes.{code_shown};
ghost use Rattle.thread_frames.specs.declared.thread.Thread.{Thread as AnyThread};
ghost use Rattle.scheduler_state.specs.Held.{held};
ghost use Rattle.scheduler_state.specs.Moments.{terms_of};
ghost use Rattle.scheduler_state.specs.Begun.{IsBegun, deques_with};
ghost use Rattle.open_periods.specs.Passed.Terms.{given_terms};

use crate::scheduler::Scheduler;
use block_arena::Pool;
use containers::Boxed;
use deque_list::List;
use language_limits::MOST_ENTRIES;
use open_periods::PeriodTable;
use space_ledger::Moves;
use std::alloc::{AllocError, Global};
use thread_frames::{Code, Thread};
use thread_map::ThreadMap;

/// The root in a deque without an owner.
fn list_with(
    alloc: Global,
    root: Boxed<Thread>,
    most: u32,
) -> Result<List<Boxed<Thread>>, AllocError>
    requires { (1 ≤ most) × (most ≤ MOST_ENTRIES) }
    ensures deques { IfOk result (λ list. list.deques ≡ deques_with root) }
    ensures most { IfOk result (λ list. list.most ≡ most) }
{
    match List::new(alloc, root, most) {
        Ok(list) => Ok(list),
        Err((_, error)) => Err(error),
    }
}

/// The root of a program in a deque without an owner, and so many workers, who are all idle. The list may have `most` deques.
///
/// # Errors
///
/// There is not enough memory.
pub fn scheduler_of(
    alloc: Global,
    code: &Code,
    workers: u32,
    pool: Pool,
    most: u32,
) -> Result<Scheduler, AllocError>
    requires most { (1 ≤ most) × (most ≤ MOST_ENTRIES) }
    requires pool { pool.live ≡ 0 }
    ensures begun { IfOk result (λ scheduler. (root : AnyThread) × IsBegun (code_shown code.now) (held scheduler) root) }
    ensures terms { (limit : ℕ) → IfOk result (λ scheduler. terms_of scheduler limit ≡ given_terms workers pool.capacity limit most) }
{
    let thread = Thread::root(alloc, code)?;
    let root = Boxed::new(alloc, thread)?;
    let list = list_with(alloc, root, most)?;
    let table = PeriodTable::new(alloc, workers)?;
    Ok(Scheduler {
        list,
        waiting: ThreadMap::new(alloc),
        place: None,
        used_place: None,
        results: ThreadMap::new(alloc),
        table,
        pool,
        moves: Moves::new(alloc),
        done: 0,
    })
}
