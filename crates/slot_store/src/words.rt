//! The words that slots hold, and giving them back.

ghost use Rattle.std.specs.Prelude.{◌≡◌, ◌≤◌, ◌^◌, List};
ghost use Rattle.depth_first_run.specs.Passed.Tree.{Name};
ghost use Rattle.block_arena.specs.Region.{with_given};
ghost use Rattle.depth_first_run.specs.Stores.{Store, held_words};
ghost use Rattle.slot_store.specs.Rows.{words_of, row_words};
ghost use Rattle.slot_store.specs.Shown.{slots_shown, blocks_shown};
ghost use Rattle.slot_store.specs.Agreement.{ShowsStore};

use crate::slots::Slots;
use block_arena::{Block, Pool};

impl Slots {
    /// How many words the blocks of all slots take.
    pub fn held_words(&self) -> u64
        ensures row { result ≡ row_words (slots_shown self.now) }
        ensures store { (names : List Name) (store : Store) → ShowsStore names (slots_shown self.now) store
            → result ≡ held_words store.blocks }
        ensures bound { result ≤ 2 ^ 48 }
    {
        let mut words = 0u64;
        for slot in &self.slots {
            words += u64::from(words_in(&slot.block));
        }
        words
    }

    /// All blocks are given back to their pool.
    pub fn give_all(self, pool: &mut Pool)
        requires live { row_words (slots_shown self) ≤ pool.old.live }
        ensures row { pool.new ≡ with_given pool.old (row_words (slots_shown self)) }
        ensures store { (names : List Name) (store : Store) → ShowsStore names (slots_shown self) store
            → pool.new ≡ with_given pool.old (held_words store.blocks) }
    {
        for slot in self.slots {
            give(pool, slot.block);
        }
    }
}

/// The block of a slot is given back to its pool, where the slot has one.
#[tactic(auto, unfolding(depth_first_run::specs::Stores::block_words))]
fn give(pool: &mut Pool, block: Option<Block>)
    requires { words_of (blocks_shown block) ≤ pool.old.live }
    ensures { pool.new ≡ with_given pool.old (words_of (blocks_shown block)) }
{
    if let Some(block) = block {
        let _shell = pool.give(block);
    }
}

/// How many words the block of a slot takes.
#[tactic(auto, unfolding(depth_first_run::specs::Stores::block_words))]
fn words_in(block: &Option<Block>) -> u32
    ensures { result ≡ words_of (blocks_shown block.now) }
{
    match block {
        Some(block) => block.words(),
        None => 0,
    }
}
