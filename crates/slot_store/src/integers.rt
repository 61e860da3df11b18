//! A new row of slots, and the integers of slots.

ghost use Rattle.std.specs.Prelude.{◌≡◌, ◌<◌, ◌≤◌, ◌-◌, ◌++◌, ℕ, List, [], length, replicate, take, IfOk, OnErr};
ghost use Rattle.depth_first_run.specs.Passed.Tree.{Name};
ghost use Rattle.node_table.specs.Names.{name_at};
ghost use Rattle.depth_first_run.specs.Stores.{Store, nothing, with_integer};
ghost use Rattle.slot_store.specs.Rows.{blank, integer_at, with_integer_at, HasNone};
ghost use Rattle.slot_store.specs.Shown.{slots_shown};
ghost use Rattle.slot_store.specs.Agreement.{AreDistinct, ShowsStore};

use crate::slot::Slot;
use crate::slots::Slots;
use std::alloc::{AllocError, Global};

/// For how many slots more a new row has room, so that [`Slots::lengthen`] needs no memory for the few that most code asks for.
const SPARE: usize = 8;

impl Slots {
    /// A row of `count` slots with nothing in them.
    ///
    /// # Errors
    ///
    /// There is not enough memory.
    pub fn new(alloc: Global, count: u16) -> Result<Slots, AllocError>
        ensures row { IfOk result (λ slots. slots_shown slots ≡ replicate count blank) }
        ensures count { IfOk result (λ slots. length (slots_shown slots) ≡ count) }
        ensures none { IfOk result (λ slots. (s : ℕ) → HasNone (slots_shown slots) s) }
        ensures store { IfOk result (λ slots. (names : List Name) → AreDistinct names → length names ≡ count
            → ShowsStore names (slots_shown slots) nothing) }
    {
        let mut slots = Vec::with_capacity(alloc, count as usize + SPARE)?;
        for _ in 0..count {
            slots.push_reserved(Slot {
                integer: 0,
                block: None,
            });
        }
        Ok(Slots { slots })
    }

    /// A row without slots, which takes no memory.
    pub fn empty(alloc: Global) -> Slots
        ensures { slots_shown result ≡ [] }
    {
        Slots {
            slots: Vec::new(alloc),
        }
    }

    /// So many slots with nothing in them come after the others that there are `count` in all.
    ///
    /// # Errors
    ///
    /// There is not enough memory. The slots are as they were.
    pub fn lengthen(&mut self, count: u16) -> Result<(), AllocError>
        requires { length (slots_shown self.old) ≤ count }
        ensures row { IfOk result (λ _. slots_shown self.new ≡ slots_shown self.old
            ++ replicate (count - length (slots_shown self.old)) blank) }
        ensures err { OnErr result (slots_shown self.new ≡ slots_shown self.old) }
    {
        let more = count as usize - self.slots.len();
        self.slots.reserve(more)?;
        for _ in 0..more {
            self.slots.push_reserved(Slot {
                integer: 0,
                block: None,
            });
        }
        Ok(())
    }

    /// The first `count` slots are left.
    pub fn shorten(&mut self, count: u16)
        ensures { slots_shown self.new ≡ take count (slots_shown self.old) }
    {
        self.slots.truncate(count as usize);
    }

    /// How many slots there are.
    pub fn count(&self) -> usize
        ensures { result ≡ length (slots_shown self.now) }
    {
        self.slots.len()
    }

    /// The integer of a slot; 0 where there is no such slot.
    pub fn integer(&self, slot: u16) -> i64
        ensures row { result ≡ integer_at (slots_shown self.now) slot }
        ensures store { (names : List Name) (store : Store) → ShowsStore names (slots_shown self.now) store → slot < length names
            → result ≡ store.integers (name_at names slot) }
    {
        match self.slots.get(slot as usize) {
            Some(slot) => slot.integer,
            None => 0,
        }
    }

    /// The integer of a slot is `value` from now on.
    pub fn set_integer(&mut self, slot: u16, value: i64)
        requires { slot < length (slots_shown self.old) }
        ensures row { slots_shown self.new ≡ with_integer_at (slots_shown self.old) slot value }
        ensures store { (names : List Name) (store : Store) → ShowsStore names (slots_shown self.old) store
            → ShowsStore names (slots_shown self.new) (with_integer (name_at names slot) value store) }
    {
        self.slots[slot as usize].integer = value;
    }
}
