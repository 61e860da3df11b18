//! Forks: the state of a child as it begins, and what its parent keeps.

ghost use Rattle.std.specs.Prelude.{◌≡◌, ◌<◌, ◌∷◌, [], ℕ, Bool, List, length, filter, false, IfOk};
ghost use Rattle.language_limits.specs.declared.TheConstants.{GREATEST_COUNT};
ghost use Rattle.depth_first_run.specs.Passed.Tree.{Name};
ghost use Rattle.node_table.specs.Reading.{AreSlots, FitsSlots};
ghost use Rattle.depth_first_run.specs.States.{Setting, State, Item, child_of, parent_of};
ghost use Rattle.depth_first_run.specs.Run.{no_name};

use crate::fork_room::ForkRoom;
use crate::state::ThreadState;
use language_limits::MOST_TURNS;
use slot_store::Slots;
use std::alloc::{AllocError, Global};

impl ThreadState {
    ghost use Rattle.thread_state.specs.States.{IsState, own_row};
    ghost use Rattle.thread_state.specs.Effects.{Goes};
    ghost use Rattle.thread_state.specs.Forks.{IsRoom, IsDummyRoom};

    /// The memory for the next child of the thread, which will run a branch.
    ///
    /// # Errors
    ///
    /// There is not enough memory.
    pub fn prepare_fork(&self, alloc: Global) -> Result<ForkRoom, AllocError>
        requires { self.now.done < GREATEST_COUNT }
        ensures { IfOk result (IsRoom self.now) }
    {
        Ok(ForkRoom {
            label: self.label.fork(self.forks + 1)?,
            slots: self.slots.copy_integers(alloc)?,
            callers: Vec::new(alloc),
        })
    }

    /// The memory for the next child of the thread, which will run a tree of dummies.
    ///
    /// # Errors
    ///
    /// There is not enough memory.
    pub fn prepare_dummies(&self, alloc: Global) -> Result<ForkRoom, AllocError>
        requires { self.now.done < GREATEST_COUNT }
        ensures { IfOk result (IsDummyRoom self.now) }
    {
        Ok(ForkRoom {
            label: self.label.fork(self.forks + 1)?,
            slots: Slots::empty(alloc),
            callers: Vec::new(alloc),
        })
    }

    /// The Fork of a child that runs a branch: it has copies of the integers, and the blocks of the slots `named`, which leave the thread.
    pub fn fork(&mut self, room: ForkRoom, named: &[u16]) -> ThreadState
        requires going { self.old.faulted ≡ false }
        requires count { self.old.done < GREATEST_COUNT }
        requires room { IsRoom self.old room }
        requires within { FitsSlots (length (own_row self.old)) named.now }
        ensures child { (contexts : List (List Name)) (names : List Name) (c : Setting) (passes : Name → Bool) (s : State)
            → c.most_turns ≡ MOST_TURNS → AreSlots names named.now (filter passes names) → IsState (names ∷ contexts) self.old s
            → IsState (names ∷ []) result (child_of c passes s) }
        ensures parent { (contexts : List (List Name)) (names : List Name) (passes : Name → Bool) (items : List Item)
            → AreSlots names named.now (filter passes names)
            → Goes (names ∷ contexts) (names ∷ contexts) self.old self.new (parent_of passes items) }
    {
        let ForkRoom {
            label,
            mut slots,
            callers,
        } = room;
        self.slots.part_into(&mut slots, named);
        self.done += 1;
        self.forks += 1;
        let turns = MOST_TURNS;
        ThreadState {
            label,
            done: 0,
            forks: 0,
            faulted: false,
            slots,
            callers,
            calls: self.calls,
            turns,
        }
    }

    /// The Fork of a child that runs a tree of dummies, and takes nothing.
    pub fn fork_dummies(&mut self, room: ForkRoom) -> ThreadState
        requires count { self.old.done < GREATEST_COUNT }
        requires room { IsDummyRoom self.old room }
        ensures child { (contexts : List (List Name)) (c : Setting) (s : State) → c.most_turns ≡ MOST_TURNS
            → IsState contexts self.old s → IsState ([] ∷ []) result (child_of c no_name s) }
        ensures parent { (contexts : List (List Name)) (items : List Item)
            → Goes contexts contexts self.old self.new (parent_of no_name items) }
    {
        let ForkRoom {
            label,
            slots,
            callers,
        } = room;
        self.done += 1;
        self.forks += 1;
        ThreadState {
            label,
            done: 0,
            forks: 0,
            faulted: false,
            slots,
            callers,
            calls: self.calls,
            turns: MOST_TURNS,
        }
    }
}
