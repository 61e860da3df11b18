//! A block that is cut in two, and put together again.

ghost use Rattle.std.specs.Prelude.{◌≡◌, ◌≢◌, ◌<◌, ◌≤◌, ◌%◌, ◌+◌, ◌-◌, ◌∷◌, [], List, length, take, drop, IfSome, OnOk, OnErr};
ghost use Rattle.depth_first_run.specs.Passed.Tree.{Name};
ghost use Rattle.node_table.specs.Names.{name_at};
ghost use Rattle.block_arena.specs.Size.{pieces_for};
ghost use Rattle.depth_first_run.specs.Stores.{Store, block_of};
ghost use Rattle.depth_first_run.specs.Run.{cut_of, cut_block, rejoin_block};
ghost use Rattle.slot_store.specs.Rows.{blocks_at, items_at, with_blocks_at, HasBlock, HasNone};
ghost use Rattle.slot_store.specs.Shown.{slots_shown};
ghost use Rattle.slot_store.specs.Agreement.{ShowsStore};

use crate::slots::Slots;
use block_arena::{Block, Shell, pieces_for};
use language_limits::{LONGEST_BLOCK, PIECE_WORDS};
use number_operators::cut_of;
use std::alloc::{AllocError, Global};

impl Slots {
    /// A number as a place where the block of a slot is cut: None exactly outside the block, and where no piece of 16 words begins.
    pub fn cut_place(&self, slot: u16, at: i64) -> Option<u32>
        ensures store { (names : List Name) (store : Store) → ShowsStore names (slots_shown self.now) store → slot < length names
            → result ≡ cut_of (block_of store.blocks (name_at names slot)) at }
        ensures within { IfSome result (λ place. place ≤ length (items_at (slots_shown self.now) slot)) }
        ensures between { IfSome result (λ place. place % PIECE_WORDS ≡ 0) }
    {
        cut_of(self.length(slot), at)
    }

    /// A `split` begins: the block of a slot is gone, and its parts are in the slots `left` and `right`, the left one with the numbers
    /// before place `at`. No words are copied.
    ///
    /// # Errors
    ///
    /// There is not enough memory. The slots are as they were.
    pub fn cut(
        &mut self,
        alloc: Global,
        slot: u16,
        at: u32,
        left: u16,
        right: u16,
    ) -> Result<(), AllocError>
        requires within { slot < length (slots_shown self.old) }
        requires within_left { left < length (slots_shown self.old) }
        requires within_right { right < length (slots_shown self.old) }
        requires some { HasBlock (slots_shown self.old) slot }
        requires no_left { HasNone (slots_shown self.old) left }
        requires no_right { HasNone (slots_shown self.old) right }
        requires apart { left ≢ right }
        requires place { at ≤ length (items_at (slots_shown self.old) slot) }
        requires between { at % PIECE_WORDS ≡ 0 }
        ensures store { (names : List Name) (store : Store) → ShowsStore names (slots_shown self.old) store
            → OnOk result (ShowsStore names (slots_shown self.new)
            (cut_block (name_at names slot) (name_at names left) (name_at names right) at store)) }
        ensures err { OnErr result (slots_shown self.new ≡ slots_shown self.old) }
    {
        let shell = Shell::with_room(alloc, pieces_for(self.length(slot) - at))?;
        self.cut_into(slot, at, left, right, shell);
        Ok(())
    }

    /// The block of a slot is cut, with the memory for it.
    fn cut_into(&mut self, slot: u16, at: u32, left: u16, right: u16, shell: Shell)
        requires within { slot < length (slots_shown self.old) }
        requires within_left { left < length (slots_shown self.old) }
        requires within_right { right < length (slots_shown self.old) }
        requires some { HasBlock (slots_shown self.old) slot }
        requires no_left { HasNone (slots_shown self.old) left }
        requires no_right { HasNone (slots_shown self.old) right }
        requires apart { left ≢ right }
        requires place { at ≤ length (items_at (slots_shown self.old) slot) }
        requires between { at % PIECE_WORDS ≡ 0 }
        requires room { pieces_for (length (items_at (slots_shown self.old) slot) - at) ≤ shell }
        ensures { (names : List Name) (store : Store) → ShowsStore names (slots_shown self.old) store
            → ShowsStore names (slots_shown self.new) (cut_block (name_at names slot) (name_at names left) (name_at names right) at store) }
    {
        let block = self.take(slot);
        let Ok((before, behind)) = block.split(at, shell) else {
            unreachable!()
        };
        self.hold(left, before);
        self.hold(right, behind);
    }

    /// A `split` ends: its parts are gone, and the block of a slot is the left one followed by the right one. No words are copied.
    ///
    /// # Errors
    ///
    /// There is not enough memory. The slots are as they were.
    pub fn rejoin(&mut self, slot: u16, left: u16, right: u16) -> Result<(), AllocError>
        requires within { slot < length (slots_shown self.old) }
        requires within_left { left < length (slots_shown self.old) }
        requires within_right { right < length (slots_shown self.old) }
        requires none { HasNone (slots_shown self.old) slot }
        requires has_left { HasBlock (slots_shown self.old) left }
        requires has_right { HasBlock (slots_shown self.old) right }
        requires apart { left ≢ right }
        requires whole { length (items_at (slots_shown self.old) left) % PIECE_WORDS ≡ 0 }
        requires short { length (items_at (slots_shown self.old) left) + length (items_at (slots_shown self.old) right) ≤ LONGEST_BLOCK }
        ensures store { (names : List Name) (store : Store) → ShowsStore names (slots_shown self.old) store
            → OnOk result (ShowsStore names (slots_shown self.new)
            (rejoin_block (name_at names slot) (name_at names left) (name_at names right) store)) }
        ensures err { OnErr result (slots_shown self.new ≡ slots_shown self.old) }
    {
        let pieces = pieces_for(self.length(left)) + pieces_for(self.length(right));
        let mut before = self.take(left);
        if let Err(error) = before.make_room(pieces) {
            self.hold(left, before);
            return Err(error);
        }
        let behind = self.take(right);
        let (whole, _shell) = Block::join(before, behind);
        self.hold(slot, whole);
        Ok(())
    }
}
