ghost use Rattle.std.specs.Prelude.{◌≡◌, ◌≢◌, ℕ, ◌+◌, ◌-◌, ◌<◌, ◌≤◌, ◌↔◌, [], ◌∷◌, length, min, insert, remove, slice_get, slice_set, Some, None, IfOk, IfErr, OnErr, IfSome, IsNone, IsErr, MatchOption};
ghost use Rattle.std.specs.Option.{option_map};
ghost use Rattle.deque_list.specs.Ids.{IsLive, IdsDiffer, IsSmallestFree, StandsAt, place_ids};
ghost use Rattle.deque_list.specs.declared.place.Place.{Place};

use crate::deque_id::DequeId;
use crate::place::Place;
use crate::search::{first_unmarked, rank_in};
use language_limits::MOST_ENTRIES;
use std::alloc::{AllocError, Global};
use std::marker::Model;

/// There are as many deques as are allowed.
#[derive(Debug, Clone, Copy, PartialEq, Eq)]
pub struct OrderFull {
    /// How many deques there are.
    pub deques: u32,
}

/// The deques from left to right, each with the worker that owns it, if any.
///
/// Contracts see the list of the places and, beside it, how many deques are allowed. The ids in it differ, and
/// each is below the number that is allowed. The memory for all of them is had at the start, so no call wants
/// memory.
#[derive(Drop)]
pub struct Order {
    // There is room for as many as are allowed.
    places: Vec<Place>,
    // Which ids are in use.
    marks: Vec<bool>,
}

impl Model for Order {
    ghost use Rattle.std.specs.Prelude.{vec_capacity, length, ◌≤◌};
    ghost use Rattle.deque_list.specs.Orders.{OrderView, order_code};

    ghost Value = { OrderView };

    ghost coded = { order_code };

    ghost use Rattle.deque_list.specs.Ids.{place_ids};
    ghost use Rattle.deque_list.specs.Marks.{IsSound};

    ghost view = { λ order. record { places = order.places.items; most = length order.marks.items } };

    ghost invariant = { λ order. IsSound (place_ids order.places.items) order.marks.items
        × (length order.marks.items ≤ vec_capacity order.places) };
}

impl Order {
    ghost use Rattle.deque_list.specs.Orders.{IsLawful};
    ghost use Rattle.deque_list.specs.Ids.{first_place};

    // An order of one deque, with the id 0 and no owner.
    pub(crate) fn new(alloc: Global, most: u32) -> Result<Order, AllocError>
        requires { (1 ≤ most) × (most ≤ MOST_ENTRIES) }
        ensures places { IfOk result (λ order. order.places ≡ first_place ∷ []) }
        ensures most { IfOk result (λ order. order.most ≡ most) }
    {
        let mut marks = vec![in alloc; false; most as usize]?;
        marks[0] = true;
        let mut places = Vec::with_capacity(alloc, most as usize)?;
        places.push_reserved(Place {
            id: DequeId(0),
            owner: None,
        });
        Ok(Order { places, marks })
    }

    /// How many deques there are.
    pub fn len(&self) -> u32
        ensures len { result ≡ length self.now.places }
        ensures lawful { IsLawful self.now }
    {
        self.places.len() as u32
    }

    /// How many deques are allowed.
    pub fn most(&self) -> u32
        ensures { result ≡ self.now.most }
    {
        let _ = &self.places;
        self.marks.len() as u32
    }

    /// The smaller of `p` and the number of deques.
    pub fn leftmost(&self, p: u32) -> u32
        ensures { result ≡ min p (length self.now.places) }
    {
        p.min(self.len())
    }

    /// The deque at a rank, from 0 at the left; None exactly where there is none.
    pub fn at(&self, rank: u32) -> Option<DequeId>
        ensures { result ≡ slice_get (place_ids self.now.places) rank }
    {
        self.places.get(rank as usize).map(|place| place.id)
    }

    /// The deque at a rank, from 0 at the left, with its owner; None exactly where there is none. It takes the same
    /// time however many deques there are.
    pub fn place(&self, rank: u32) -> Option<Place>
        ensures { result ≡ slice_get self.now.places rank }
    {
        self.places.get(rank as usize).copied()
    }

    /// The id that the next deque gets: the smallest one that no live deque has; None exactly where there are as
    /// many deques as are allowed.
    pub fn next_id(&self) -> Option<DequeId>
        ensures none { IsNone result ↔ (length self.now.places ≡ self.now.most) }
        ensures id { IfSome result (λ id. IsSmallestFree (place_ids self.now.places) id) }
        ensures below { IfSome result (λ id. id.0 < self.now.most) }
    {
        if self.places.len() == self.marks.len() {
            return None;
        }
        Some(DequeId(first_unmarked(&self.marks) as u32))
    }

    /// The rank of a deque; None exactly where it is not live.
    pub fn rank(&self, id: DequeId) -> Option<u32>
        ensures { MatchOption result (¬ IsLive (place_ids self.now.places) id)
            (λ rank. slice_get (place_ids self.now.places) rank ≡ Some id) }
    {
        match rank_in(&self.places, id) {
            Some(rank) => Some(rank as u32),
            None => None,
        }
    }

    /// The worker that owns a deque; None exactly where there is none.
    pub fn owner(&self, id: DequeId) -> Option<u32>
        requires { IsLive (place_ids self.now.places) id }
        ensures { (rank : ℕ) (place : Place) → StandsAt self.now.places id rank place → result ≡ place.owner }
    {
        let rank = self.rank_of(id);
        self.places[rank].owner
    }

    /// Gives a deque without an owner an owner.
    pub fn take_over(&mut self, id: DequeId, owner: u32)
        requires unowned { (rank : ℕ) × (place : Place) × StandsAt self.old.places id rank place × (place.owner ≡ None) }
        ensures place { (rank : ℕ) (place : Place) → StandsAt self.old.places id rank place
            → self.new.places ≡ slice_set self.old.places rank (record place { owner = Some owner }) }
        ensures ids { place_ids self.new.places ≡ place_ids self.old.places }
        ensures most { self.new.most ≡ self.old.most }
    {
        self.set_owner(id, Some(owner));
    }

    /// Takes a deque's owner away.
    pub fn give_up(&mut self, id: DequeId)
        requires { IsLive (place_ids self.old.places) id }
        ensures place { (rank : ℕ) (place : Place) → StandsAt self.old.places id rank place
            → self.new.places ≡ slice_set self.old.places rank (record place { owner = None }) }
        ensures ids { place_ids self.new.places ≡ place_ids self.old.places }
        ensures most { self.new.most ≡ self.old.most }
    {
        self.set_owner(id, None);
    }

    /// Puts a deque with an owner immediately to the right of another. It has the id that `next_id` tells.
    ///
    /// It is refused exactly where there are as many deques as are allowed, and then the order is as it was.
    pub fn insert_right(&mut self, of: DequeId, owner: u32) -> Result<DequeId, OrderFull>
        requires { IsLive (place_ids self.old.places) of }
        ensures ok { IfOk result (λ id. (rank : ℕ) (place : Place) → StandsAt self.old.places of rank place
            → self.new.places ≡ insert self.old.places (rank + 1) (record { id = id; owner = Some owner })) }
        ensures ids { IfOk result (λ id. (rank : ℕ) → slice_get (place_ids self.old.places) rank ≡ Some of
            → place_ids self.new.places ≡ insert (place_ids self.old.places) (rank + 1) id) }
        ensures id { IfOk result (λ id. IsSmallestFree (place_ids self.old.places) id) }
        ensures below { IfOk result (λ id. id.0 < self.old.most) }

        ensures full { IsErr result ↔ (length self.old.places ≡ self.old.most) }
        ensures told { IfErr result (λ full. full.deques ≡ self.old.most) }
        ensures err { OnErr result (self.new ≡ self.old) }
        ensures most { self.new.most ≡ self.old.most }
    {
        if self.places.len() == self.marks.len() {
            return Err(OrderFull { deques: self.len() });
        }
        Ok(self.insert_where_few(of, owner))
    }

    // What `insert_right` does where there are fewer deques than are allowed.
    pub(crate) fn insert_where_few(&mut self, of: DequeId, owner: u32) -> DequeId
        requires live { IsLive (place_ids self.old.places) of }
        requires few { length self.old.places < self.old.most }
        ensures places { (rank : ℕ) (place : Place) → StandsAt self.old.places of rank place
            → self.new.places ≡ insert self.old.places (rank + 1) (record { id = result; owner = Some owner }) }
        ensures ids { (rank : ℕ) → slice_get (place_ids self.old.places) rank ≡ Some of
            → place_ids self.new.places ≡ insert (place_ids self.old.places) (rank + 1) result }
        ensures id { IsSmallestFree (place_ids self.old.places) result }
        ensures below { result.0 < self.old.most }
        ensures most { self.new.most ≡ self.old.most }
    {
        let rank = self.rank_of(of);
        let free = first_unmarked(&self.marks);
        self.marks[free] = true;
        let id = DequeId(free as u32);
        let place = Place {
            id,
            owner: Some(owner),
        };
        match self.places.insert(rank + 1, place) {
            Ok(()) => id,
            Err(_) => unreachable!(),
        }
    }

    /// Takes a deque out of the order.
    pub fn remove(&mut self, id: DequeId)
        requires { IsLive (place_ids self.old.places) id }
        ensures place { (rank : ℕ) (place : Place) → StandsAt self.old.places id rank place
            → self.new.places ≡ remove self.old.places rank }
        ensures ids { (rank : ℕ) → slice_get (place_ids self.old.places) rank ≡ Some id
            → place_ids self.new.places ≡ remove (place_ids self.old.places) rank }
        ensures most { self.new.most ≡ self.old.most }
    {
        let rank = self.rank_of(id);
        self.places.remove(rank);
        self.marks[id.0 as usize] = false;
    }

    // The rank of a live deque.
    fn rank_of(&self, id: DequeId) -> usize
        requires { IsLive (place_ids self.now.places) id }
        ensures rank { slice_get (place_ids self.now.places) result ≡ Some id }
        ensures within { result < length self.now.places }
        ensures differ { IdsDiffer (place_ids self.now.places) }
    {
        match rank_in(&self.places, id) {
            Some(rank) => rank,
            None => unreachable!(),
        }
    }

    fn set_owner(&mut self, id: DequeId, owner: Option<u32>)
        requires { IsLive (place_ids self.old.places) id }
        ensures place { (rank : ℕ) (place : Place) → StandsAt self.old.places id rank place
            → self.new.places ≡ slice_set self.old.places rank (record place { owner = owner }) }
        ensures ids { place_ids self.new.places ≡ place_ids self.old.places }
        ensures most { self.new.most ≡ self.old.most }
    {
        let rank = self.rank_of(id);
        self.places[rank].owner = owner;
    }
}
