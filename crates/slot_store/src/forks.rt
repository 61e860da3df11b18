//! What a forked child takes of a row, and what it brings back.

ghost use Rattle.std.specs.Prelude.{◌≡◌, ◌≤◌, ◌<◌, ◌+◌, ℕ, Bool, [], List, length, map, filter, IsTrue, ◌↔◌, IfOk, OnOk, OnErr};
ghost use Rattle.depth_first_run.specs.Passed.Tree.{Name};
ghost use Rattle.node_table.specs.Reading.{AreSlots, FitsSlots};
ghost use Rattle.depth_first_run.specs.Stores.{Store};
ghost use Rattle.slot_store.specs.Rows.{entry_at, blocks_at, with_blocks_at, without_block};
ghost use Rattle.slot_store.specs.Shown.{slots_shown};
ghost use Rattle.slot_store.specs.Agreement.{ShowsStore};
ghost use Rattle.slot_store.specs.Forks.{Parts, with_integers_of, joined_blocks, or_own, AreApart};
ghost use Rattle.depth_first_run.specs.Branches.{child_store, parent_store, joined_store};

use crate::slot::Slot;
use crate::slots::Slots;
use std::alloc::{AllocError, Global};

impl Slots {
    /// The row of a forked child: copies of the integers, and the blocks of the slots `blocks`, which leave this row.
    ///
    /// # Errors
    ///
    /// There is not enough memory. The slots are as they were.
    pub fn part(&mut self, alloc: Global, blocks: &[u16]) -> Result<Slots, AllocError>
        requires { FitsSlots (length (slots_shown self.old)) blocks.now }
        ensures rows { IfOk result (λ child. Parts blocks.now (slots_shown self.old) (slots_shown child) (slots_shown self.new)) }
        ensures child { (names : List Name) (store : Store) (named : Name → Bool) → ShowsStore names (slots_shown self.old) store
            → AreSlots names blocks.now (filter named names)
            → IfOk result (λ child. ShowsStore names (slots_shown child) (child_store named store)) }
        ensures parent { (names : List Name) (store : Store) (named : Name → Bool) → ShowsStore names (slots_shown self.old) store
            → AreSlots names blocks.now (filter named names)
            → OnOk result (ShowsStore names (slots_shown self.new) (parent_store named store)) }
        ensures err { OnErr result (slots_shown self.new ≡ slots_shown self.old) }
    {
        let mut child = self.copy_integers(alloc)?;
        self.part_into(&mut child, blocks);
        Ok(child)
    }

    /// The blocks of the slots `blocks` leave this row and come to that of a forked child, which was copied from it.
    pub fn part_into(&mut self, child: &mut Slots, blocks: &[u16])
        requires fits { FitsSlots (length (slots_shown self.old)) blocks.now }
        requires bare { slots_shown child.old ≡ map without_block (slots_shown self.old) }
        ensures rows { Parts blocks.now (slots_shown self.old) (slots_shown child.new) (slots_shown self.new) }
        ensures child { (names : List Name) (store : Store) (named : Name → Bool) → ShowsStore names (slots_shown self.old) store
            → AreSlots names blocks.now (filter named names)
            → ShowsStore names (slots_shown child.new) (child_store named store) }
        ensures parent { (names : List Name) (store : Store) (named : Name → Bool) → ShowsStore names (slots_shown self.old) store
            → AreSlots names blocks.now (filter named names)
            → ShowsStore names (slots_shown self.new) (parent_store named store) }
    {
        move_blocks(self, child, blocks);
    }

    /// A row with the same integers, and no blocks.
    ///
    /// # Errors
    ///
    /// There is not enough memory.
    pub fn copy_integers(&self, alloc: Global) -> Result<Slots, AllocError>
        ensures { IfOk result (λ child. slots_shown child ≡ map without_block (slots_shown self.now)) }
    {
        let mut slots = Vec::with_capacity(alloc, self.slots.len())?;
        for slot in &self.slots {
            slots.push_reserved(Slot {
                integer: slot.integer,
                block: None,
            });
        }
        Ok(Slots { slots })
    }

    /// A child that has ended brings back the integers of the slots `assigned`, and all blocks that it holds.
    pub fn take_in(&mut self, child: Slots, assigned: &[u16])
        requires counts { length (slots_shown child) ≡ length (slots_shown self.old) }
        requires within { FitsSlots (length (slots_shown self.old)) assigned.now }
        requires apart { AreApart (slots_shown self.old) (slots_shown child) }
        ensures { (names : List Name) (own brought : Store) (assigns : Name → Bool) → ShowsStore names (slots_shown self.old) own
            → ShowsStore names (slots_shown child) brought → AreSlots names assigned.now (filter assigns names)
            → ShowsStore names (slots_shown self.new) (joined_store assigns brought own) }
    {
        self.take_integers(&child, assigned);
        self.take_blocks(child);
    }

    /// Whether no slot has a block in both rows.
    pub fn is_apart(&self, child: &Slots) -> bool
        ensures { IsTrue result ↔ AreApart (slots_shown self.now) (slots_shown child.now) }
    {
        for slot in 0..self.slots.len() as u16 {
            if !self.is_apart_at(child, slot) {
                return false;
            }
        }
        true
    }

    /// Whether a slot has no block, or none in the child's row.
    fn is_apart_at(&self, child: &Slots, slot: u16) -> bool
        ensures { IsTrue result
            ↔ (length (blocks_at (slots_shown self.now) slot) + length (blocks_at (slots_shown child.now) slot) ≤ 1) }
    {
        !self.has_block(slot) || !child.has_block(slot)
    }

    /// The integers of the slots `assigned` are the child's.
    fn take_integers(&mut self, child: &Slots, assigned: &[u16])
        requires within { FitsSlots (length (slots_shown self.old)) assigned.now }
        ensures count { length (slots_shown self.new) ≡ length (slots_shown self.old) }
        ensures has { (s : ℕ) → entry_at (slots_shown self.new) s
            ≡ with_integers_of (slots_shown self.old) (slots_shown child.now) assigned.now s }
    {
        for slot in assigned {
            self.set_integer(*slot, child.integer(*slot));
        }
    }

    /// All blocks of the child come to this row.
    fn take_blocks(&mut self, child: Slots)
        requires counts { length (slots_shown child) ≡ length (slots_shown self.old) }
        requires apart { AreApart (slots_shown self.old) (slots_shown child) }
        ensures count { length (slots_shown self.new) ≡ length (slots_shown self.old) }
        ensures has { (s : ℕ) → entry_at (slots_shown self.new) s ≡ joined_blocks (slots_shown self.old) (slots_shown child) s }
    {
        let mut child = child;
        let count = self.slots.len() as u16;
        for slot in 0..count {
            move_block(&mut child, self, slot);
        }
    }
}

/// The blocks of slots move from one row to another.
fn move_blocks(from: &mut Slots, to: &mut Slots, slots: &[u16])
    requires fits { FitsSlots (length (slots_shown from.old)) slots.now }
    requires bare { slots_shown to.old ≡ map without_block (slots_shown from.old) }
    ensures { Parts slots.now (slots_shown from.old) (slots_shown to.new) (slots_shown from.new) }
{
    for slot in slots {
        move_block(from, to, *slot);
    }
}

/// The block of a slot, where it has one, moves from one row to another.
fn move_block(from: &mut Slots, to: &mut Slots, slot: u16)
    requires within_from { slot < length (slots_shown from.old) }
    requires within_to { slot < length (slots_shown to.old) }
    ensures from { slots_shown from.new ≡ with_blocks_at (slots_shown from.old) slot [] }
    ensures to { slots_shown to.new ≡ with_blocks_at (slots_shown to.old) slot
        (or_own (blocks_at (slots_shown from.old) slot) (blocks_at (slots_shown to.old) slot)) }
{
    if let Some(block) = from.slots[slot as usize].block.take() {
        to.slots[slot as usize].block = Some(block);
    }
}
