//! Joins: what a thread has behind the Join of a child that has ended.

ghost use Rattle.std.specs.Prelude.{◌≡◌, ◌≤◌, ◌<◌, ◌+◌, ◌∷◌, [], ℕ, Bool, List, length, filter, false};
ghost use Rattle.language_limits.specs.declared.TheConstants.{GREATEST_COUNT};
ghost use Rattle.depth_first_run.specs.Passed.Tree.{Name};
ghost use Rattle.node_table.specs.Reading.{AreSlots, FitsSlots};
ghost use Rattle.depth_first_run.specs.States.{State, given_back, joined};
ghost use Rattle.depth_first_run.specs.Run.{no_name};

use crate::released_rows::ReleasedRows;
use crate::state::ThreadState;
use crate::words::take_rows;

impl ThreadState {
    ghost use Rattle.thread_state.specs.States.{IsState, words_held, own_row};
    ghost use Rattle.thread_state.specs.Effects.{Goes};
    ghost use Rattle.thread_state.specs.Joins.{released, words_released, CanTakeIn};

    /// How many words the Join of a child gives back: all that the child brings to a thread that a fault ended, or all that the thread holds
    /// where a fault ended the child; else none.
    pub fn join_releases(&self, child: &ThreadState) -> u64
        ensures words { result ≡ released self.now child.now }
        ensures state { (contexts : List (List Name)) (names : List Name) (s d : State) → IsState contexts self.now s
            → IsState (names ∷ []) child.now d → result ≡ given_back s.faulted d.faulted d s }
    {
        if self.faulted {
            child.holdings()
        } else if child.faulted {
            self.holdings()
        } else {
            0
        }
    }

    /// The Join of a child that ran a branch and has ended: the integers of the slots `assigned` are the child's, and all its blocks come
    /// back. Where a fault ended the thread or the child, all that is left of both comes out as rows, for the pool.
    pub fn join(&mut self, child: ThreadState, assigned: &[u16]) -> ReleasedRows
        requires count { self.old.done < GREATEST_COUNT }
        requires can { self.old.faulted ≡ false → child.faulted ≡ false → CanTakeIn (own_row self.old) (own_row child) assigned.now }
        ensures state { (contexts : List (List Name)) (names : List Name) (assigns : Name → Bool) (ordinal : ℕ) (d : State)
            → IsState (names ∷ []) child d → AreSlots names assigned.now (filter assigns names)
            → Goes (names ∷ contexts) (names ∷ contexts) self.old self.new (joined assigns ordinal d) }
        ensures words { words_released result ≡ released self.old child }
    {
        self.done += 1;
        if self.faulted {
            child.into_rows()
        } else if child.faulted {
            self.faulted = true;
            take_rows(&mut self.slots, &mut self.callers)
        } else {
            self.slots.take_in(child.slots, assigned);
            ReleasedRows::none(*self.callers.allocator())
        }
    }

    /// The Join of a child that ran a tree of dummies and has ended. It brings nothing. What `join` says of faults is so here too.
    pub fn join_dummies(&mut self, child: ThreadState) -> ReleasedRows
        requires count { self.old.done < GREATEST_COUNT }
        ensures state { (contexts : List (List Name)) (ordinal : ℕ) (d : State) → IsState ([] ∷ []) child d
            → Goes contexts contexts self.old self.new (joined no_name ordinal d) }
        ensures words { words_released result ≡ released self.old child }
    {
        self.done += 1;
        if self.faulted {
            child.into_rows()
        } else if child.faulted {
            self.faulted = true;
            take_rows(&mut self.slots, &mut self.callers)
        } else {
            ReleasedRows::none(*self.callers.allocator())
        }
    }
}
