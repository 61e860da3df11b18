//! Blocks: what allocates, frees, cuts and joins them.

ghost use Rattle.std.specs.Prelude.{◌≡◌, ◌<◌, ◌≤◌, ◌∷◌, ℕ, List, length, false, pos, replicate};
ghost use Rattle.language_limits.specs.declared.TheConstants.{GREATEST_COUNT};
ghost use Rattle.depth_first_run.specs.Passed.Tree.{Name};
ghost use Rattle.block_arena.specs.Region.{with_given};
ghost use Rattle.node_table.specs.Names.{name_at};
ghost use Rattle.depth_first_run.specs.Stores.{block_of, block_words};
ghost use Rattle.depth_first_run.specs.States.{State, unless_faulted};
ghost use Rattle.depth_first_run.specs.Run.{free_block, on_store, rejoin_block};
ghost use Rattle.depth_first_run.specs.Middle.{allocated};
ghost use Rattle.slot_store.specs.Rows.{blocks_at, words_of, HasBlock, HasNone};
ghost use Rattle.thread_state.specs.Conditions.{CanCut, CanRejoin};
ghost use Rattle.thread_state.specs.Cuts.{cut_or_fault};

use crate::state::ThreadState;
use crate::stop::Stop;
use block_arena::{Block, Pool, pieces_for};
use dag_order::FaultKind;
use language_limits::PIECE_WORDS;
use std::alloc::{AllocError, Global};

impl ThreadState {
    ghost use Rattle.thread_state.specs.States.{IsState, own_row};
    ghost use Rattle.thread_state.specs.Effects.{Goes, GoesOrWants, GoesOrStops};

    /// An allocation whose dummies are done: a new block of zeros is held in a slot that has none.
    pub fn hold(&mut self, slot: u16, block: Block)
        requires going { self.old.faulted ≡ false }
        requires within { slot < length (own_row self.old) }
        requires none { HasNone (own_row self.old) slot }
        requires count { self.old.done < GREATEST_COUNT }
        ensures { (contexts : List (List Name)) (names : List Name) (n : ℕ) → block.items ≡ replicate n (pos 0)
            → Goes (names ∷ contexts) (names ∷ contexts) self.old self.new (allocated (name_at names slot) n) }
    {
        self.slots.hold(slot, block);
        self.done += 1;
    }

    /// How many words the block of a slot takes; 0 where the slot has none.
    pub fn words_at(&self, slot: u16) -> u64
        requires { self.now.faulted ≡ false }
        ensures { (contexts : List (List Name)) (names : List Name) (s : State) → IsState (names ∷ contexts) self.now s
            → slot < length names → result ≡ block_words (length (block_of s.store.blocks (name_at names slot))) }
    {
        u64::from(PIECE_WORDS) * u64::from(pieces_for(self.slots.length(slot)))
    }

    /// `free b;`: the block of a slot goes back to the pool.
    pub fn release(&mut self, slot: u16, pool: &mut Pool)
        requires going { self.old.faulted ≡ false }
        requires within { slot < length (own_row self.old) }
        requires has { HasBlock (own_row self.old) slot }
        requires count { self.old.done < GREATEST_COUNT }
        requires live { words_of (blocks_at (own_row self.old) slot) ≤ pool.old.live }
        ensures state { (contexts : List (List Name)) (names : List Name)
            → Goes (names ∷ contexts) (names ∷ contexts) self.old self.new (free_block (name_at names slot)) }
        ensures pool { pool.new ≡ with_given pool.old (words_of (blocks_at (own_row self.old) slot)) }
        ensures words { (contexts : List (List Name)) (names : List Name) (s : State) → IsState (names ∷ contexts) self.old s
            → pool.new ≡ with_given pool.old (block_words (length (block_of s.store.blocks (name_at names slot)))) }
    {
        let block = self.slots.take(slot);
        let _shell = pool.give(block);
        self.done += 1;
    }

    /// A `split` begins at a place of the block of a slot: its parts are in the slots `left` and `right`, and the block is gone.
    ///
    /// # Errors
    ///
    /// The fault `Split`, exactly outside the block and where no piece of 16 words begins; or want of memory. The thread is as it was.
    pub fn cut(
        &mut self,
        alloc: Global,
        slot: u16,
        at: i64,
        left: u16,
        right: u16,
    ) -> Result<(), Stop>
        requires going { self.old.faulted ≡ false }
        requires can { CanCut (own_row self.old) slot left right }
        ensures state { (contexts : List (List Name)) (names : List Name) (line : ℕ)
            → GoesOrStops (names ∷ contexts) (names ∷ contexts) line self.old result self.new
            (cut_or_fault line (name_at names slot) (name_at names left) (name_at names right) at) }
        ensures going { self.new.faulted ≡ self.old.faulted }
        ensures turns { self.new.turns ≡ self.old.turns }
    {
        let Some(place) = self.slots.cut_place(slot, at) else {
            return Err(Stop::Fault(FaultKind::Split));
        };
        match self.slots.cut(alloc, slot, place, left, right) {
            Ok(()) => Ok(()),
            Err(_) => Err(Stop::OutOfMemory),
        }
    }

    /// A `split` ends: its parts are gone, and the block of a slot is the left one followed by the right one. A thread that a fault ended
    /// has none of them.
    ///
    /// # Errors
    ///
    /// There is not enough memory. The thread is as it was.
    pub fn rejoin(&mut self, slot: u16, left: u16, right: u16) -> Result<(), AllocError>
        requires { self.old.faulted ≡ false → CanRejoin (own_row self.old) slot left right }
        ensures state { (contexts : List (List Name)) (names : List Name)
            → GoesOrWants (names ∷ contexts) (names ∷ contexts) self.old result self.new
            (unless_faulted (on_store (rejoin_block (name_at names slot) (name_at names left) (name_at names right)))) }
        ensures going { self.new.faulted ≡ self.old.faulted }
        ensures turns { self.new.turns ≡ self.old.turns }
    {
        if self.faulted {
            return Ok(());
        }
        match self.slots.rejoin(slot, left, right) {
            Ok(()) => Ok(()),
            Err(error) => Err(error),
        }
    }
}
