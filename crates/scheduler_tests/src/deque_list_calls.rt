ghost use Rattle.deque_list.specs.Ids.{IsLive};
ghost use Rattle.deque_list.specs.Deques.{deque_ids};

use deque_list::{DequeId, InsertRefused, List, Order};
use std::process::Abort;

// A value that may go to another thread.
fn sends<T: Send>(_value: &T) {}

// A list of at most 4,096 deques, of which the first one has the item 0.
fn list_of(rt: &(impl Abort + AllocGlobal)) -> List<u32> {
    List::new(rt.alloc(), 0, 4_096).ok().expect(rt, "memory")
}

// Checks that a deque is live.
fn live(rt: &impl Abort, list: &List<u32>, id: DequeId)
    ensures { IsLive (deque_ids list.now.deques) id }
{
    match list.rank(id) {
        Some(_) => {}
        None => panic!(rt; "the deque is not live"),
    }
}

// Inserts a deque to the right of another, with the same item as its number, and gives its number.
fn insert(rt: &impl Abort, list: &mut List<u32>, of: u32) -> Option<u32> {
    live(rt, list, DequeId(of));
    let id = list
        .insert_right(DequeId(of), of.saturating_add(1), of)
        .ok()?;
    Some(id.0)
}

// Pushes an item.
fn push(rt: &impl Abort, list: &mut List<u32>, id: DequeId, item: u32) {
    live(rt, list, id);
    let Ok(()) = list.reserve(id) else {
        panic!(rt; "memory");
    };
    live(rt, list, id);
    list.push_top(id, item);
}

// Takes the bottom item.
fn take(rt: &impl Abort, list: &mut List<u32>, id: DequeId) -> Option<u32> {
    live(rt, list, id);
    list.take_bottom(id)
}

// As many deques as a list may have, and 300 items in the lane of the last one.
#[test]
fn lists_and_lanes_grow(rt: HostRuntime) {
    let mut list = list_of(&rt);
    sends(&list);
    for before in 0..4_095 {
        assert!(rt; insert(&rt, &mut list, before) == Some(before + 1));
    }
    let full = InsertRefused::Full { deques: 4_096 };
    assert!(rt; list.room_right() == Err(full));
    let last = DequeId(4_095);
    for item in 0..299 {
        push(&rt, &mut list, last, item);
    }
    assert!(rt; take(&rt, &mut list, last) == Some(4_095));
    for item in 0..299u32 {
        assert!(rt; take(&rt, &mut list, last) == Some(item));
    }
    assert!(rt; take(&rt, &mut list, last).is_none());
}

// Inserts a place to the right of the first one.
fn order_insert(rt: &impl Abort, order: &mut Order, owner: u32) -> Option<u32> {
    match order.rank(DequeId(0)) {
        Some(_) => {}
        None => panic!(rt; "the deque is not live"),
    }
    let id = order.insert_right(DequeId(0), owner).ok()?;
    Some(id.0)
}

#[test]
fn orders_grow(rt: HostRuntime) {
    let list = list_of(&rt);
    assert!(rt; list.len() == 1);
    let (mut order, _, lane) = list.into_first();
    sends(&order);
    sends(&lane);
    for before in 0..4_095 {
        assert!(rt; order_insert(&rt, &mut order, before) == Some(before + 1));
    }
    assert!(rt; order_insert(&rt, &mut order, 0).is_none());
}
