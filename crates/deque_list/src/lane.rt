ghost use Rattle.std.specs.Prelude.{◌≡◌, ◌+◌, ◌-◌, ◌≤◌, [], ◌∷◌, ◌++◌, length, take, drop, slice_get, IsOk, IsErr, OnOk, IfOk, MatchOption, option_to_list};
ghost use Rattle.std.specs.Option.{option_copied, option_copied_mut};

use language_limits::GREATEST_COUNT;
use std::alloc::{AllocError, Global};
use std::collections::VecDeque;
use std::marker::Model;

/// The items of one deque, from top to bottom.
///
/// Items come to the top and leave from the top or from the bottom, and no call moves the others. Contracts
/// see the list of the items and, beside it, as `spare`, how many more it takes without memory. A lane has
/// room for at most [`GREATEST_COUNT`] items.
#[derive(Drop)]
pub struct Lane<T> {
    items: VecDeque<T>,
}

impl<T> Model for Lane<T> {
    ghost use Rattle.deque_list.specs.Lanes.{LaneView, lane_code};

    ghost Value = { LaneView T };

    ghost coded = { lane_code T.code };

    ghost use Rattle.deque_list.specs.LaneRoom.{room};
    ghost use Rattle.std.specs.Prelude.{◌<◌, ◌^◌};
    ghost use Rattle.std.specs.VecDeque.{deque_len};

    ghost view = { λ lane. record { items = lane.items.items; spare = room lane.items } };

    ghost invariant = { λ lane. deque_len lane.items < 2 ^ 32 };
}

impl<T> Lane<T> {
    ghost use Rattle.std.specs.Borrow.{sem};
    ghost use Rattle.deque_list.specs.LaneLends.{lends_top};

    /// A lane without items. It takes no memory.
    pub fn new(alloc: Global) -> Lane<T>
        ensures { result.items ≡ [] }
    {
        Lane {
            items: VecDeque::new(alloc),
        }
    }

    // A lane without items, with room for one.
    pub(crate) fn with_room(alloc: Global) -> Result<Lane<T>, AllocError>
        ensures items { IfOk result (λ lane. lane.items ≡ []) }
        ensures room { IfOk result (λ lane. 1 ≤ lane.spare) }
    {
        let items = VecDeque::with_capacity(alloc, 1)?;
        Ok(Lane { items })
    }

    // Gives the memory of a lane without items back.
    pub(crate) fn destroy_empty(self)
        requires { self.items ≡ [] }
    {
        self.items.destroy_empty();
    }

    /// How many items the lane has.
    pub fn len(&self) -> u32
        ensures { result ≡ length self.now.items }
    {
        self.items.len() as u32
    }

    /// Makes room for at least one more item. Where there is room, no memory is needed. In a lane of [`GREATEST_COUNT`] items memory is said to be
    /// wanting, and none is asked for.
    pub fn reserve(&mut self) -> Result<(), AllocError>
        ensures items { self.new.items ≡ self.old.items }
        ensures room { OnOk result (1 ≤ self.new.spare) }
        ensures keeps_room { self.old.spare ≤ self.new.spare }
        ensures enough { 1 ≤ self.old.spare → IsOk result }
        ensures full { length self.old.items ≡ GREATEST_COUNT → IsErr result }
    {
        if self.items.len() == GREATEST_COUNT as usize {
            return Err(AllocError);
        }
        self.items.reserve(1)
    }

    /// Puts an item on top. It takes no memory.
    pub fn push_top(&mut self, item: T)
        requires { 1 ≤ self.old.spare }
        ensures items { self.new.items ≡ item ∷ self.old.items }
        ensures spare { self.new.spare + 1 ≡ self.old.spare }
    {
        self.items.push_front_reserved(item);
    }

    /// Takes the top item; None exactly where there is no item. There is room for one more then.
    pub fn pop_top(&mut self) -> Option<T>
        ensures item { result ≡ slice_get self.old.items 0 }
        ensures rest { self.new.items ≡ drop 1 self.old.items }
        ensures room { MatchOption result (self.new.spare ≡ self.old.spare) (λ _. self.new.spare ≡ self.old.spare + 1) }
    {
        self.items.pop_front()
    }

    /// Takes the bottom item; None exactly where there is no item. There is room for one more then.
    pub fn take_bottom(&mut self) -> Option<T>
        ensures item { result ≡ slice_get self.old.items (length self.old.items - 1) }
        ensures rest { self.new.items ≡ take (length self.old.items - 1) self.old.items }
        ensures room { MatchOption result (self.new.spare ≡ self.old.spare) (λ _. self.new.spare ≡ self.old.spare + 1) }
    {
        self.items.pop_back()
    }

    /// The item at a place from the top, from 0; None exactly where there is no such item.
    pub fn item(&self, place: u32) -> Option<&T>
        ensures { option_copied result ≡ slice_get self.now.items place }
    {
        self.items.get(place as usize)
    }

    /// The top item; None exactly where there is no item.
    pub fn top(&self) -> Option<&T>
        ensures { option_copied result ≡ slice_get self.now.items 0 }
    {
        self.items.front()
    }

    /// The top item for writing; None exactly where there is no item.
    pub fn top_mut(&mut self) -> Option<&mut T>
        ensures* writes_back { sem 𝓛 (lends_top T.row self.entry result) }
        ensures value { option_copied_mut result ≡ slice_get self.old.items 0 }
    {
        self.items.front_mut()
    }
}
