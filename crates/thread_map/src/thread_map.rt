ghost use Rattle.std.specs.Prelude.{◌≡◌, ◌≢◌, ℕ, ◌+◌, ◌≤◌, ◌<◌, ◌↔◌, [], ◌∷◌, length, Some, None, IsOk, IsSome, IsTrue, IfSome, IfNone, OnOk, OnErr};
ghost use Rattle.std.specs.Option.{option_copied, option_copied_mut};
ghost use Rattle.std.specs.List.Sorted.{IsPermutation};
ghost use Rattle.thread_map.specs.Kept.{Kept, kept_under, IdsDiffer, KeepsTheSame, KeepsUnder};

use dag_order::ThreadId;
use std::alloc::{AllocError, Global};
use std::collections::HashMap;
use std::marker::Model;

/// Values that are kept under the ids of threads, at most one under each.
///
/// Contracts see what is kept, each with its id, in an order that is of no account, and beside it how many more
/// values the map takes without memory.
#[derive(Drop)]
pub struct ThreadMap<T> {
    map: HashMap<ThreadId, T>,
}

impl<T> Model for ThreadMap<T> {
    ghost use Rattle.std.specs.HashMap.{spare};
    ghost use Rattle.thread_map.specs.Kept.{Kept, kept_code};

    ghost Value = { Kept T };

    ghost coded = { kept_code T.code };

    ghost view = { λ m. record { entries = m.map.entries; spare = spare m.map } };
}

impl<T> ThreadMap<T> {
    ghost use Rattle.std.specs.Borrow.{sem};
    ghost use Rattle.thread_map.specs.KeptLends.{lends_value};

    /// A map that keeps nothing. It takes no memory.
    pub fn new(alloc: Global) -> ThreadMap<T>
        ensures { result.entries ≡ [] }
    {
        ThreadMap {
            map: HashMap::new(alloc),
        }
    }

    /// How many values are kept.
    pub fn len(&self) -> usize
        ensures len { result ≡ length self.now.entries }
        ensures differ { IdsDiffer self.now }
    {
        self.map.len()
    }

    /// What is kept under an id; None exactly where there is nothing.
    pub fn get(&self, id: ThreadId) -> Option<&T>
        ensures { option_copied result ≡ kept_under self.now id }
    {
        self.map.get(&id)
    }

    /// What is kept under an id, for writing; None exactly where there is nothing. What the map keeps once it was
    /// written is told by the law [`value_written`](crate::value_written).
    pub fn get_mut(&mut self, id: ThreadId) -> Option<&mut T>
        ensures* writes_back { sem 𝓛 (lends_value T.row self.entry id result) }
        ensures value { option_copied_mut result ≡ kept_under self.old id }
    {
        self.map.get_mut(&id)
    }

    /// Whether something is kept under an id.
    pub fn has(&self, id: ThreadId) -> bool
        ensures { IsTrue result ↔ IsSome (kept_under self.now id) }
    {
        self.map.contains_key(&id)
    }

    /// Makes room for at least one more value. Where there is room, no memory is needed.
    pub fn reserve(&mut self) -> Result<(), AllocError>
        ensures same { KeepsTheSame self.old self.new }
        ensures room { OnOk result (1 ≤ self.new.spare) }
        ensures keeps_room { self.old.spare ≤ self.new.spare }
        ensures enough { 1 ≤ self.old.spare → IsOk result }
    {
        self.map.reserve(1)
    }

    /// Keeps a value under an id under which nothing is kept. It takes no memory, and leaves room for at least one
    /// value less.
    pub fn put(&mut self, id: ThreadId, value: T)
        requires room { 1 ≤ self.old.spare }
        requires free { kept_under self.old id ≡ None }
        ensures kept { KeepsUnder self.old self.new id (Some value) }
        ensures entries { IsPermutation ((id, value) ∷ self.old.entries) self.new.entries }
        ensures spare { self.old.spare ≤ self.new.spare + 1 }
    {
        match self.map.insert(id, value) {
            Ok(before) => match before {
                None => {}
                Some(_) => unreachable!(),
            },
            Err(_) => unreachable!(),
        }
    }

    /// Takes what is kept under an id out of the map; None exactly where there is nothing, and then all stays.
    pub fn take(&mut self, id: ThreadId) -> Option<T>
        ensures value { result ≡ kept_under self.old id }
        ensures kept { KeepsUnder self.old self.new id None }
        ensures entries { IfSome result (λ value. IsPermutation self.old.entries ((id, value) ∷ self.new.entries)) }
        ensures none { IfNone result (self.new.entries ≡ self.old.entries) }
        ensures keeps_room { self.old.spare ≤ self.new.spare }
    {
        self.map.remove(&id)
    }

    /// Gives the memory of a map that keeps nothing back.
    pub fn destroy_empty(self)
        requires { self.entries ≡ [] }
    {
        self.map.destroy_empty();
    }
}
