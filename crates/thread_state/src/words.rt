//! The words that a thread holds, and what gives them back.

ghost use Rattle.std.specs.Prelude.{◌≡◌, ◌≤◌, ◌<◌, ◌+◌, ◌*◌, ◌^◌, [], ℕ, List, length, map};
ghost use Rattle.language_limits.specs.declared.TheConstants.{GREATEST_COUNT, MOST_CALLS};
ghost use Rattle.depth_first_run.specs.Passed.Tree.{Name};
ghost use Rattle.dag_order.specs.declared.fault.FaultKind.{FaultKind as AnyFault};
ghost use Rattle.block_arena.specs.Region.{with_given};
ghost use Rattle.depth_first_run.specs.States.{State, holdings, with_fault};
ghost use Rattle.slot_store.specs.Rows.{row_words};
ghost use Rattle.slot_store.specs.Shown.{slots_shown};
ghost use Rattle.thread_state.specs.Rows.{all_words};
ghost use Rattle.thread_state.specs.Joins.{words_released};

use crate::released_rows::ReleasedRows;
use crate::state::ThreadState;
use block_arena::Pool;
use slot_store::Slots;
use std::alloc::Global;
use std::mem;

impl ThreadState {
    ghost use Rattle.thread_state.specs.States.{IsState, words_held};
    ghost use Rattle.thread_state.specs.Effects.{Goes};

    /// How many words the thread holds, in all its open calls.
    pub fn holdings(&self) -> u64
        ensures rows { result ≡ words_held self.now }
        ensures state { (contexts : List (List Name)) (s : State) → IsState contexts self.now s → result ≡ holdings s }
        ensures bound { result ≤ 10001 * 2 ^ 48 }
    {
        self.slots.held_words() + words_of_rows(&self.callers)
    }

    /// The action of a fault: all blocks that the thread holds go back to the pool, and it does no further statement.
    pub fn fault(&mut self, pool: &mut Pool)
        requires count { self.old.done < GREATEST_COUNT }
        requires live { words_held self.old ≤ pool.old.live }
        ensures state { (contexts : List (List Name)) (kind : AnyFault) (line : ℕ)
            → Goes contexts contexts self.old self.new (with_fault kind line) }
        ensures pool { pool.new ≡ with_given pool.old (words_held self.old) }
        ensures words { (contexts : List (List Name)) (s : State) → IsState contexts self.old s
            → pool.new ≡ with_given pool.old (holdings s) }
    {
        take_rows(&mut self.slots, &mut self.callers).give_all(pool);
        self.faulted = true;
        self.done += 1;
    }

    /// All blocks that the thread holds go back to the pool, and the thread is no more.
    pub fn give_all(self, pool: &mut Pool)
        requires { words_held self ≤ pool.old.live }
        ensures pool { pool.new ≡ with_given pool.old (words_held self) }
        ensures words { (contexts : List (List Name)) (s : State) → IsState contexts self s
            → pool.new ≡ with_given pool.old (holdings s) }
    {
        self.into_rows().give_all(pool);
    }

    /// The rows of the thread, which is no more.
    pub(crate) fn into_rows(self) -> ReleasedRows
        ensures { words_released result ≡ words_held self }
    {
        ReleasedRows {
            slots: self.slots,
            callers: self.callers,
        }
    }
}

impl ReleasedRows {
    /// No rows.
    pub(crate) fn none(alloc: Global) -> ReleasedRows
        ensures { words_released result ≡ 0 }
    {
        ReleasedRows {
            slots: Slots::empty(alloc),
            callers: Vec::new(alloc),
        }
    }

    /// The blocks of the rows go back to the pool.
    pub fn give_all(self, pool: &mut Pool)
        requires { words_released self ≤ pool.old.live }
        ensures { pool.new ≡ with_given pool.old (words_released self) }
    {
        self.slots.give_all(pool);
        give_each(self.callers, pool);
    }
}

/// How many words the blocks in some rows take.
fn words_of_rows(rows: &[Slots]) -> u64
    requires { length rows.now ≤ MOST_CALLS }
    ensures words { result ≡ all_words (map slots_shown rows.now) }
    ensures bound { result ≤ MOST_CALLS * 2 ^ 48 }
{
    let mut words = 0u64;
    for row in rows {
        words += row.held_words();
    }
    words
}

/// Takes the rows of a thread out. One row without slots is left.
pub(crate) fn take_rows(slots: &mut Slots, callers: &mut Vec<Slots>) -> ReleasedRows
    ensures slots { slots_shown slots.new ≡ [] }
    ensures callers { callers.new.items ≡ [] }
    ensures words { words_released result ≡ row_words (slots_shown slots.old) + all_words (map slots_shown callers.old.items) }
{
    let alloc = *callers.allocator();
    ReleasedRows {
        slots: mem::replace(slots, Slots::empty(alloc)),
        callers: mem::replace(callers, Vec::new(alloc)),
    }
}

/// All blocks of some rows go back to the pool.
fn give_each(rows: Vec<Slots>, pool: &mut Pool)
    requires { all_words (map slots_shown rows.items) ≤ pool.old.live }
    ensures { pool.new ≡ with_given pool.old (all_words (map slots_shown rows.items)) }
{
    for row in rows {
        row.give_all(pool);
    }
}
