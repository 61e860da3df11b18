//! The blocks of slots.

ghost use Rattle.std.specs.Prelude.{◌≡◌, ◌<◌, ◌∷◌, ◌↔◌, [], List, length, slice_set, IsTrue, IsFalse, OnErr};
ghost use Rattle.depth_first_run.specs.Passed.Tree.{Name};
ghost use Rattle.node_table.specs.Names.{name_at};
ghost use Rattle.depth_first_run.specs.Stores.{Store, block_of, hold_block, drop_block};
ghost use Rattle.depth_first_run.specs.Values.{number_at, place_in};
ghost use Rattle.slot_store.specs.Rows.{blocks_at, items_at, with_blocks_at, HasBlock, HasNone};
ghost use Rattle.slot_store.specs.Shown.{slots_shown, blocks_seen};
ghost use Rattle.slot_store.specs.Agreement.{ShowsStore};
ghost use Rattle.slot_store.specs.Effects.{Puts, PutsAt};

use crate::slots::Slots;
use block_arena::Block;
use dag_order::FaultKind;
use number_operators::place_in;

impl Slots {
    /// The block of a slot.
    fn block(&self, slot: u16) -> Option<&Block>
        ensures { blocks_seen result ≡ blocks_at (slots_shown self.now) slot }
    {
        match self.slots.get(slot as usize) {
            Some(slot) => slot.block.as_ref(),
            None => None,
        }
    }

    /// Whether a slot has a block.
    pub fn has_block(&self, slot: u16) -> bool
        ensures some { IsTrue result ↔ HasBlock (slots_shown self.now) slot }
        ensures none { IsFalse result ↔ HasNone (slots_shown self.now) slot }
    {
        self.block(slot).is_some()
    }

    /// How many numbers the block of a slot has; 0 where the slot has none.
    pub fn length(&self, slot: u16) -> u32
        ensures row { result ≡ length (items_at (slots_shown self.now) slot) }
        ensures store { (names : List Name) (store : Store) → ShowsStore names (slots_shown self.now) store → slot < length names
            → result ≡ length (block_of store.blocks (name_at names slot)) }
    {
        match self.block(slot) {
            Some(block) => block.len(),
            None => 0,
        }
    }

    /// The number at a place, from 0, of the block of a slot.
    ///
    /// # Errors
    ///
    /// `Index`, exactly outside the block.
    pub fn element(&self, slot: u16, index: i64) -> Result<i64, FaultKind>
        ensures row { result ≡ number_at (items_at (slots_shown self.now) slot) index }
        ensures store { (names : List Name) (store : Store) → ShowsStore names (slots_shown self.now) store → slot < length names
            → result ≡ number_at (block_of store.blocks (name_at names slot)) index }
    {
        let Some(block) = self.block(slot) else {
            return Err(FaultKind::Index);
        };
        let Some(place) = place_in(block.len(), index) else {
            return Err(FaultKind::Index);
        };
        match block.get(place) {
            Some(value) => Ok(value),
            None => Err(FaultKind::Index),
        }
    }

    /// A block is held in a slot that has none.
    pub fn hold(&mut self, slot: u16, block: Block)
        requires within { slot < length (slots_shown self.old) }
        requires none { HasNone (slots_shown self.old) slot }
        ensures row { slots_shown self.new ≡ with_blocks_at (slots_shown self.old) slot (block.items ∷ []) }
        ensures store { (names : List Name) (store : Store) → ShowsStore names (slots_shown self.old) store
            → ShowsStore names (slots_shown self.new) (hold_block (name_at names slot) block.items store) }
    {
        self.slots[slot as usize].block = Some(block);
    }

    /// The block of a slot, which has none from then on.
    pub fn take(&mut self, slot: u16) -> Block
        requires within { slot < length (slots_shown self.old) }
        requires some { HasBlock (slots_shown self.old) slot }
        ensures block { blocks_at (slots_shown self.old) slot ≡ result.items ∷ [] }
        ensures row { slots_shown self.new ≡ with_blocks_at (slots_shown self.old) slot [] }
        ensures store { (names : List Name) (store : Store) → ShowsStore names (slots_shown self.old) store
            → (block_of store.blocks (name_at names slot) ≡ result.items)
            × ShowsStore names (slots_shown self.new) (drop_block (name_at names slot) store) }
    {
        match self.slots[slot as usize].block.take() {
            Some(block) => block,
            None => unreachable!(),
        }
    }

    /// Puts `value` at a place, from 0, of the block of a slot.
    ///
    /// # Errors
    ///
    /// `Index`, exactly outside the block. The slots are as they were.
    pub fn put(&mut self, slot: u16, index: i64, value: i64) -> Result<(), FaultKind>
        requires { slot < length (slots_shown self.old) }
        ensures row { PutsAt slot value (place_in (items_at (slots_shown self.old) slot) index) (slots_shown self.old) result
            (slots_shown self.new) }
        ensures store { (names : List Name) (store : Store) → ShowsStore names (slots_shown self.old) store
            → Puts names (name_at names slot) value (place_in (block_of store.blocks (name_at names slot)) index) store result
            (slots_shown self.new) }
        ensures err { OnErr result (slots_shown self.new ≡ slots_shown self.old) }
        ensures same { OnErr result (self.new ≡ self.old) }
    {
        let Some(place) = place_in(self.length(slot), index) else {
            return Err(FaultKind::Index);
        };
        self.write(slot, place, value);
        Ok(())
    }

    /// Writes `value` to a place that the block of a slot has.
    fn write(&mut self, slot: u16, place: u32, value: i64)
        requires within { slot < length (slots_shown self.old) }
        requires there { place < length (items_at (slots_shown self.old) slot) }
        ensures { slots_shown self.new ≡ with_blocks_at (slots_shown self.old) slot
            (slice_set (items_at (slots_shown self.old) slot) place value ∷ []) }
    {
        if let Some(block) = &mut self.slots[slot as usize].block {
            let _written = block.set(place, value);
        }
    }
}
