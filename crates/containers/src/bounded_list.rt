ghost use Rattle.std.specs.Prelude.{◌≡◌, ◌+◌, ◌≤◌, ◌<◌, ◌^◌, ◌↔◌, [], ◌∷◌, ◌++◌, length, min, slice_get, IsTrue, IsOk, IsErr, IfOk, OnOk, vec_len, vec_capacity};
ghost use Rattle.std.specs.Option.{option_copied};

use language_limits::GREATEST_COUNT;
use std::alloc::{AllocError, Global};

/// A list over a `Vec`, whose places and whose length are numbers of 32 bits.
///
/// Contracts see the list as its `entries` and, beside them, as its `spare`: how many further entries it
/// takes without memory. What is said of the entries does not speak of the room.
#[derive(PartialEq, Eq, Debug, Drop)]
pub struct BoundedList<T> {
    items: Vec<T>,
    pub ghost short: { vec_len items < 2 ^ 32 },
}

#[tactic(auto, unfolding(crate::specs::BoundedList::spare))]
impl<T> BoundedList<T> {
    ghost use Rattle.containers.specs.BoundedList.{entries, spare};

    /// An empty list. It takes no memory.
    pub fn new(alloc: Global) -> BoundedList<T>
        ensures { entries result ≡ [] }
    {
        BoundedList {
            items: Vec::new(alloc),
        }
    }

    /// The list of the entries of `items`, with its room, without memory.
    pub fn from_vec(items: Vec<T>) -> BoundedList<T>
        requires { vec_len items < 2 ^ 32 }
        ensures entries { entries result ≡ items.items }
        ensures spare { spare result + vec_len items ≡ min (vec_capacity items) GREATEST_COUNT }
    {
        BoundedList { items }
    }

    /// The entries as a `Vec`, without memory.
    pub fn into_vec(self) -> Vec<T>
        ensures entries { result.items ≡ entries self }
        ensures short { vec_len result < 2 ^ 32 }
    {
        self.items
    }

    /// How many entries the list has.
    pub fn len(&self) -> u32
        ensures { result ≡ length (entries self.now) }
    {
        self.items.len() as u32
    }

    /// Whether the list has no entry.
    pub fn is_empty(&self) -> bool
        ensures { IsTrue result ↔ (entries self.now ≡ []) }
    {
        self.items.is_empty()
    }

    /// The entry at place `i`, from 0; None exactly where `i` is not below the length.
    pub fn at(&self, i: u32) -> Option<&T>
        ensures { option_copied result ≡ slice_get (entries self.now) i }
    {
        self.items.get(i as usize)
    }

    /// The entries as a slice, to go over them.
    pub fn as_slice(&self) -> &[T]
        ensures { result.now ≡ entries self.now }
    {
        self.items.as_slice()
    }

    /// Makes room for at least one further entry.
    ///
    /// A list of [`GREATEST_COUNT`] entries gets no more room: there want of room is want of memory.
    pub fn reserve(&mut self) -> Result<(), AllocError>
        ensures entries { entries self.new ≡ entries self.old }
        ensures room { OnOk result (1 ≤ spare self.new) }
        ensures keeps_room { spare self.old ≤ spare self.new }
        ensures succeeds { 1 ≤ spare self.old → IsOk result }
        ensures full { length (entries self.old) ≡ GREATEST_COUNT → IsErr result }
    {
        if self.len() == GREATEST_COUNT {
            return Err(AllocError);
        }
        self.items.reserve(1)
    }

    /// Puts `entry` at the end. It takes no memory.
    pub fn add(&mut self, entry: T)
        requires { 1 ≤ spare self.old }
        ensures entries { entries self.new ≡ entries self.old ++ entry ∷ [] }
        ensures spare { spare self.new + 1 ≡ spare self.old }
    {
        self.items.push_reserved(entry);
    }
}

#[tactic(auto, unfolding(crate::specs::BoundedList::spare))]
impl<T: Copy> BoundedList<T> {
    ghost use Rattle.containers.specs.BoundedList.{entries, spare};

    /// A list of the same entries, with room for one more. No memory is left where there are
    /// [`GREATEST_COUNT`] entries.
    pub fn copy_with_room(&self) -> Result<BoundedList<T>, AllocError>
        ensures entries { IfOk result (λ copy. entries copy ≡ entries self.now) }
        ensures room { IfOk result (λ copy. 1 ≤ spare copy) }
        ensures full { length (entries self.now) ≡ GREATEST_COUNT → IsErr result }
    {
        if self.len() == GREATEST_COUNT {
            return Err(AllocError);
        }
        let mut items = Vec::with_capacity(*self.items.allocator(), self.items.len() + 1)?;
        items.extend_from_slice(self.items.as_slice())?;
        Ok(BoundedList { items })
    }
}
