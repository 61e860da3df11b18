ghost use Rattle.std.specs.Prelude.{◌≡◌, ◌≢◌, ℕ, ◌+◌, ◌-◌, ◌<◌, ◌≤◌, ◌↔◌, [], ◌∷◌, length, min, insert, remove, drop, take, slice_get, slice_set, Some, None, Err, IfOk, IfErr, OnOk, OnErr, MatchOption, IsTrue, IsOk, IsSome, IsErrAnd, false};
ghost use Rattle.std.specs.Option.{option_copied, option_copied_mut, option_map};
ghost use Rattle.deque_list.specs.Ids.{IsLive, IsSmallestFree, deque_id};
ghost use Rattle.deque_list.specs.Deques.{Deque, DequeAt, IsReady, deque_ids, place_of};
ghost use Rattle.deque_list.specs.DequeLists.{lane_room, IsLawfulList, SameRoom, SameElsewhere};

use crate::deque_id::DequeId;
use crate::insert_refused::InsertRefused;
use crate::lane::Lane;
use crate::lanes::Lanes;
use crate::order::Order;
use crate::place::Place;
use crate::spare_lane::SpareLane;
use language_limits::MOST_ENTRIES;
use std::alloc::{AllocError, Global};
use std::marker::Model;

/// The scheduler's list of deques, from left to right: each has an id, the worker that owns it, if any, and
/// its items.
///
/// Contracts see the list of the deques and, beside it, how many are allowed, whether the list takes one
/// more deque without memory, and how many more items each lane takes without memory.
#[derive(Drop)]
pub struct List<T> {
    order: Order,
    lanes: Lanes<T>,
    // An empty lane with room for an item, for the next deque.
    next: Option<Lane<T>>,
    spare: SpareLane<T>,
    alloc: Global,
}

impl<T> Model for List<T> {
    ghost use Rattle.deque_list.specs.DequeLists.{ListView, list_code, list_view, IsKept};

    ghost Value = { ListView T };

    ghost coded = { list_code T.code };

    ghost view = { λ list. list_view list.order list.lanes list.next };

    ghost invariant = { λ list. IsKept list.order list.lanes list.next };
}

impl<T> List<T> {
    ghost use Rattle.std.specs.Borrow.{sem};
    ghost use Rattle.deque_list.specs.ListLends.{lends_top_item};

    /// A list of one deque without an owner, which holds `first`. At most `most` deques are allowed, from 1
    /// to 4,194,305.
    pub fn new(alloc: Global, first: T, most: u32) -> Result<List<T>, (T, AllocError)>
        requires { (1 ≤ most) × (most ≤ MOST_ENTRIES) }
        ensures deques { IfOk result (λ list. list.deques ≡ (record { id = deque_id 0; owner = None; items = first ∷ [] }) ∷ []) }
        ensures most { IfOk result (λ list. list.most ≡ most) }
        ensures spare { IfOk result (λ list. list.spare ≡ 0) }
        ensures err { IfErr result (λ e. e.0 ≡ first) }
    {
        let order = match Order::new(alloc, most) {
            Ok(order) => order,
            Err(error) => return Err((first, error)),
        };
        let mut lane = match Lane::with_room(alloc) {
            Ok(lane) => lane,
            Err(error) => return Err((first, error)),
        };
        let mut lanes = match Lanes::new(alloc, most) {
            Ok(lanes) => lanes,
            Err(error) => {
                lane.destroy_empty();
                return Err((first, error));
            }
        };
        lane.push_top(first);
        lanes.put(0, lane);
        Ok(List {
            order,
            lanes,
            next: None,
            spare: SpareLane::none(),
            alloc,
        })
    }

    /// Puts a deque with an owner and one item immediately to the right of another. It has the smallest id
    /// that no live deque has.
    ///
    /// `Full` comes exactly where there are as many deques as are allowed. After a refusal the list is as it
    /// was, and the item comes back. Where `room_right` made room, memory is not wanting.
    pub fn insert_right(
        &mut self,
        of: DequeId,
        item: T,
        owner: u32,
    ) -> Result<DequeId, (T, InsertRefused)>
        requires { IsLive (deque_ids self.old.deques) of }
        ensures ok { IfOk result (λ id. (rank : ℕ) (deque : Deque T) → DequeAt self.old.deques of rank deque
            → self.new.deques ≡ insert self.old.deques (rank + 1) (record { id = id; owner = Some owner; items = item ∷ [] })) }
        ensures ids { IfOk result (λ id. (rank : ℕ) → slice_get (deque_ids self.old.deques) rank ≡ Some of
            → deque_ids self.new.deques ≡ insert (deque_ids self.old.deques) (rank + 1) id) }
        ensures id { IfOk result (λ id. IsSmallestFree (deque_ids self.old.deques) id) }
        ensures below { IfOk result (λ id. id.0 < self.old.most) }
        ensures spent { OnOk result (self.new.spare ≡ 0) }
        ensures others { IfOk result (λ id. (other : DequeId) → other ≢ id → lane_room self.new other ≡ lane_room self.old other) }

        ensures full { (deques : ℕ) → IsErrAnd result (λ e. e.1 ≡ InsertRefused.Full deques)
            ↔ ((length self.old.deques ≡ self.old.most) × (deques ≡ self.old.most)) }
        ensures prepared { self.old.spare ≡ 1 → ¬ IsErrAnd result (λ e. e.1 ≡ InsertRefused.OutOfMemory) }
        ensures err { IfErr result (λ e. (e.0 ≡ item) × (self.new ≡ self.old)) }
        ensures most { self.new.most ≡ self.old.most }
    {
        if let Err(refused) = self.room_right() {
            return Err((item, refused));
        }
        let mut lane = match self.next.take() {
            Some(lane) => lane,
            None => unreachable!(),
        };
        lane.push_top(item);
        let id = self.order.insert_where_few(of, owner);
        self.lanes.put(id.0, lane);
        Ok(id)
    }

    /// Makes room for one more deque: its Ok makes `spare` 1, and only an Ok of `insert_right` makes it 0.
    ///
    /// `Full` comes exactly where there are as many deques as are allowed. No deque changes.
    pub fn room_right(&mut self) -> Result<(), InsertRefused>
        ensures ok { OnOk result (self.new.spare ≡ 1) }
        ensures few { OnOk result (length self.new.deques < self.new.most) }
        ensures wanting { result ≡ Err InsertRefused.OutOfMemory → length self.old.deques < self.old.most }
        ensures full { (deques : ℕ) → (result ≡ Err (InsertRefused.Full deques))
            ↔ ((length self.old.deques ≡ self.old.most) × (deques ≡ self.old.most)) }
        ensures prepared { self.old.spare ≡ 1 → result ≢ Err InsertRefused.OutOfMemory }
        ensures err { OnErr result (self.new ≡ self.old) }
        ensures rest { (self.new.deques ≡ self.old.deques) × (self.new.most ≡ self.old.most) × (self.new.rooms ≡ self.old.rooms) }
    {
        if self.order.len() == self.order.most() {
            return Err(InsertRefused::Full {
                deques: self.order.len(),
            });
        }
        if self.next.is_none() {
            self.lanes.reserve()?;
            let lane = self.spare.lane(self.alloc)?;
            match self.next.replace(lane) {
                None => {}
                Some(_) => unreachable!(),
            }
        }
        Ok(())
    }

    /// Takes a deque without items out of the list.
    pub fn remove(&mut self, id: DequeId)
        requires { (rank : ℕ) × (deque : Deque T) × DequeAt self.old.deques id rank deque × (deque.items ≡ []) }
        ensures deque { (rank : ℕ) (deque : Deque T) → DequeAt self.old.deques id rank deque
            → self.new.deques ≡ remove self.old.deques rank }
        ensures ids { (rank : ℕ) → slice_get (deque_ids self.old.deques) rank ≡ Some id
            → deque_ids self.new.deques ≡ remove (deque_ids self.old.deques) rank }
        ensures rest { SameElsewhere self.old self.new id }
    {
        self.order.remove(id);
        let lane = self.lanes.take(id.0);
        self.spare.keep(lane);
    }

    /// How many deques there are.
    pub fn len(&self) -> u32
        ensures len { result ≡ length self.now.deques }
        ensures lawful { IsLawfulList self.now }
    {
        self.order.len()
    }

    /// The smaller of `p` and the number of deques.
    pub fn leftmost(&self, p: u32) -> u32
        ensures { result ≡ min p (length self.now.deques) }
    {
        self.order.leftmost(p)
    }

    /// The deque at a rank, from 0 at the left; None exactly where there is none.
    pub fn at(&self, rank: u32) -> Option<DequeId>
        ensures { result ≡ slice_get (deque_ids self.now.deques) rank }
    {
        self.order.at(rank)
    }

    /// The deque at a rank, from 0 at the left, with its owner; None exactly where there is none. It takes the same
    /// time however many deques there are.
    pub fn place(&self, rank: u32) -> Option<Place>
        ensures { result ≡ option_map place_of (slice_get self.now.deques rank) }
    {
        self.order.place(rank)
    }

    /// The rank of a deque; None exactly where it is not live.
    pub fn rank(&self, id: DequeId) -> Option<u32>
        ensures { MatchOption result (¬ IsLive (deque_ids self.now.deques) id)
            (λ rank. slice_get (deque_ids self.now.deques) rank ≡ Some id) }
    {
        self.order.rank(id)
    }

    /// The worker that owns a deque; None exactly where there is none.
    pub fn owner(&self, id: DequeId) -> Option<u32>
        requires { IsLive (deque_ids self.now.deques) id }
        ensures { (rank : ℕ) (deque : Deque T) → DequeAt self.now.deques id rank deque → result ≡ deque.owner }
    {
        self.order.owner(id)
    }

    /// Whether the bottom item of a deque may be taken: nobody owns the deque, or its owner has another item.
    pub fn ready(&self, id: DequeId) -> bool
        requires { IsLive (deque_ids self.now.deques) id }
        ensures { (rank : ℕ) (deque : Deque T) → DequeAt self.now.deques id rank deque → IsTrue result ↔ IsReady deque }
    {
        self.order.owner(id).is_none() || 2 <= self.lanes.lane(id.0).len()
    }

    /// Whether a deque stands at a rank whose bottom item may be taken. It takes the same time however many deques
    /// there are.
    pub fn ready_at(&self, rank: u32) -> bool
        ensures { MatchOption (slice_get self.now.deques rank) (result ≡ false) (λ deque. IsTrue result ↔ IsReady deque) }
    {
        let Some(place) = self.order.place(rank) else {
            return false;
        };
        place.owner.is_none() || 2 <= self.lanes.lane(place.id.0).len()
    }

    /// The lane of a deque.
    pub fn lane(&self, id: DequeId) -> &Lane<T>
        requires { IsLive (deque_ids self.now.deques) id }
        ensures items { (rank : ℕ) (deque : Deque T) → DequeAt self.now.deques id rank deque → result.now.items ≡ deque.items }
        ensures spare { result.now.spare ≡ lane_room self.now id }
    {
        self.lanes.lane(id.0)
    }

    /// The item at a place of a deque, from 0 at the top; None exactly where there is no such item.
    pub fn item(&self, id: DequeId, place: u32) -> Option<&T>
        requires { IsLive (deque_ids self.now.deques) id }
        ensures { (rank : ℕ) (deque : Deque T) → DequeAt self.now.deques id rank deque
            → option_copied result ≡ slice_get deque.items place }
    {
        self.lanes.lane(id.0).item(place)
    }

    /// Gives a deque without an owner an owner.
    pub fn take_over(&mut self, id: DequeId, owner: u32)
        requires { (rank : ℕ) × (deque : Deque T) × DequeAt self.old.deques id rank deque × (deque.owner ≡ None) }
        ensures deque { (rank : ℕ) (deque : Deque T) → DequeAt self.old.deques id rank deque
            → self.new.deques ≡ slice_set self.old.deques rank (record deque { owner = Some owner }) }
        ensures ids { deque_ids self.new.deques ≡ deque_ids self.old.deques }
        ensures rest { SameRoom self.old self.new }
    {
        self.order.take_over(id, owner);
    }

    /// Takes a deque's owner away.
    pub fn give_up(&mut self, id: DequeId)
        requires { IsLive (deque_ids self.old.deques) id }
        ensures deque { (rank : ℕ) (deque : Deque T) → DequeAt self.old.deques id rank deque
            → self.new.deques ≡ slice_set self.old.deques rank (record deque { owner = None }) }
        ensures ids { deque_ids self.new.deques ≡ deque_ids self.old.deques }
        ensures rest { SameRoom self.old self.new }
    {
        self.order.give_up(id);
    }

    /// Makes room for at least one more item in the lane of a deque. Where there is room, no memory is needed.
    pub fn reserve(&mut self, id: DequeId) -> Result<(), AllocError>
        requires { IsLive (deque_ids self.old.deques) id }
        ensures deques { self.new.deques ≡ self.old.deques }
        ensures room { OnOk result (1 ≤ lane_room self.new id) }
        ensures keeps_room { lane_room self.old id ≤ lane_room self.new id }
        ensures enough { 1 ≤ lane_room self.old id → IsOk result }
        ensures rest { SameElsewhere self.old self.new id }
    {
        self.lanes.lane_mut(id.0).reserve()
    }

    /// Puts an item on top of a deque. It takes no memory.
    pub fn push_top(&mut self, id: DequeId, item: T)
        requires live { IsLive (deque_ids self.old.deques) id }
        requires room { 1 ≤ lane_room self.old id }
        ensures deque { (rank : ℕ) (deque : Deque T) → DequeAt self.old.deques id rank deque
            → self.new.deques ≡ slice_set self.old.deques rank (record deque { items = item ∷ deque.items }) }
        ensures ids { deque_ids self.new.deques ≡ deque_ids self.old.deques }
        ensures room { lane_room self.new id + 1 ≡ lane_room self.old id }
        ensures rest { SameElsewhere self.old self.new id }
    {
        self.lanes.lane_mut(id.0).push_top(item);
    }

    /// Takes the top item of a deque; None exactly where it has no item.
    pub fn pop_top(&mut self, id: DequeId) -> Option<T>
        requires { IsLive (deque_ids self.old.deques) id }
        ensures item { (rank : ℕ) (deque : Deque T) → DequeAt self.old.deques id rank deque → result ≡ slice_get deque.items 0 }
        ensures deque { (rank : ℕ) (deque : Deque T) → DequeAt self.old.deques id rank deque
            → self.new.deques ≡ slice_set self.old.deques rank (record deque { items = drop 1 deque.items }) }
        ensures ids { deque_ids self.new.deques ≡ deque_ids self.old.deques }
        ensures room { MatchOption result (lane_room self.new id ≡ lane_room self.old id)
            (λ _. lane_room self.new id ≡ lane_room self.old id + 1) }
        ensures rest { SameElsewhere self.old self.new id }
    {
        self.lanes.lane_mut(id.0).pop_top()
    }

    /// Takes the bottom item of a deque; None exactly where it has no item. The others do not move.
    pub fn take_bottom(&mut self, id: DequeId) -> Option<T>
        requires { IsLive (deque_ids self.old.deques) id }
        ensures item { (rank : ℕ) (deque : Deque T) → DequeAt self.old.deques id rank deque
            → result ≡ slice_get deque.items (length deque.items - 1) }
        ensures deque { (rank : ℕ) (deque : Deque T) → DequeAt self.old.deques id rank deque
            → self.new.deques ≡ slice_set self.old.deques rank (record deque { items = take (length deque.items - 1) deque.items }) }
        ensures ids { deque_ids self.new.deques ≡ deque_ids self.old.deques }
        ensures room { MatchOption result (lane_room self.new id ≡ lane_room self.old id)
            (λ _. lane_room self.new id ≡ lane_room self.old id + 1) }
        ensures rest { SameElsewhere self.old self.new id }
    {
        self.lanes.lane_mut(id.0).take_bottom()
    }

    /// The top item of a deque for writing; None exactly where it has no item. What the list is once it was written is
    /// told by the law [`top_written`](crate::top_written).
    pub fn top_mut(&mut self, id: DequeId) -> Option<&mut T>
        requires { IsLive (deque_ids self.old.deques) id }
        ensures* writes_back { sem 𝓛 (lends_top_item T.row self.entry id result) }
        ensures item { (rank : ℕ) (deque : Deque T) → DequeAt self.old.deques id rank deque
            → option_copied_mut result ≡ slice_get deque.items 0 }
    {
        self.lanes.lane_mut(id.0).top_mut()
    }
}

impl<T: Drop> List<T> {
    /// The order of a list of one deque, the id of this deque and its lane.
    pub fn into_first(self) -> (Order, DequeId, Lane<T>)
        requires { length self.deques ≡ 1 }
        ensures order { (deque : Deque T) → slice_get self.deques 0 ≡ Some deque
            → result.0.places ≡ (record { id = deque.id; owner = deque.owner }) ∷ [] }
        ensures most { result.0.most ≡ self.most }
        ensures id { slice_get (deque_ids self.deques) 0 ≡ Some result.1 }
        ensures lane { (deque : Deque T) → slice_get self.deques 0 ≡ Some deque → result.2.items ≡ deque.items }
    {
        let List {
            order,
            mut lanes,
            ..
        } = self;
        let id = match order.at(0) {
            Some(id) => id,
            None => unreachable!(),
        };
        let lane = lanes.take(id.0);
        (order, id, lane)
    }
}
