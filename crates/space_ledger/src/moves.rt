ghost use Rattle.std.specs.Prelude.{◌≡◌, ℕ, ◌+◌, ◌≤◌, ◌↔◌, [], ◌∷◌, ◌++◌, length, slice_get, IsTrue, IsOk, OnOk, ◌+ℤ◌, FitsSigned};
ghost use Rattle.std.specs.Option.{option_copied};
ghost use Rattle.std.specs.Int.{w64};
ghost use Rattle.containers.specs.BoundedList.{entries};
ghost use Rattle.space_ledger.specs.Sums.{total_change, highest, IsHighest};

use crate::moved::Moved;
use containers::BoundedList;
use std::alloc::{AllocError, Global};

/// The moves of a run in their order, with their sum and the greatest sum that it had.
///
/// Contracts see the list of the moves and, beside it, how many more it takes without memory.
#[derive(Debug, Drop)]
pub struct Moves {
    list: BoundedList<Moved>,
    live: i64,
    high: i64,
    pub ghost live_is: { live ≡ total_change (entries list) },
    pub ghost high_is: { high ≡ highest (entries list) },
}

impl Moves {
    ghost use Rattle.space_ledger.specs.MovesList.{moves_list, moves_spare};

    /// No moves. It takes no memory.
    pub fn new(alloc: Global) -> Moves
        ensures { moves_list result ≡ [] }
    {
        Moves {
            list: BoundedList::new(alloc),
            live: 0,
            high: 0,
        }
    }

    /// How many moves there are.
    pub fn len(&self) -> u32
        ensures { result ≡ length (moves_list self.now) }
    {
        self.list.len()
    }

    /// Whether there are none.
    pub fn is_empty(&self) -> bool
        ensures { IsTrue result ↔ (moves_list self.now ≡ []) }
    {
        self.list.is_empty()
    }

    /// The move at place `i`, from 0; None exactly where `i` is not below the length.
    pub fn at(&self, i: u32) -> Option<&Moved>
        ensures { option_copied result ≡ slice_get (moves_list self.now) i }
    {
        self.list.at(i)
    }

    /// Makes room for at least one further move.
    pub fn reserve(&mut self) -> Result<(), AllocError>
        ensures moves { moves_list self.new ≡ moves_list self.old }
        ensures room { OnOk result (1 ≤ moves_spare self.new) }
        ensures keeps_room { moves_spare self.old ≤ moves_spare self.new }
        ensures succeeds { 1 ≤ moves_spare self.old → IsOk result }
    {
        self.list.reserve()
    }

    /// Puts a move at the end. It takes no memory. The new sum must be a number of 64 bits.
    pub fn add(&mut self, moved: Moved)
        requires room { 1 ≤ moves_spare self.old }
        requires fits { FitsSigned w64 (total_change (moves_list self.old) +ℤ moved.change) }
        ensures moves { moves_list self.new ≡ moves_list self.old ++ moved ∷ [] }
        ensures spare { moves_spare self.new + 1 ≡ moves_spare self.old }
    {
        self.list.add(moved);
        self.live += moved.change;
        self.high = self.high.max(self.live);
    }

    /// The words that are live after all moves: the sum of the changes. It walks nothing.
    pub fn live(&self) -> i64
        ensures { result ≡ total_change (moves_list self.now) }
    {
        self.live
    }

    /// The high-water mark: the greatest sum that the changes had, at least 0. It walks nothing.
    pub fn high(&self) -> i64
        ensures high { result ≡ highest (moves_list self.now) }
        ensures greatest { IsHighest (moves_list self.now) result }
    {
        self.high
    }
}
