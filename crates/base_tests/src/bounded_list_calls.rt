use containers::BoundedList;
use std::test::Fail;

#[test]
fn entries_come_back_in_order(rt: HostRuntime) -> Result<(), Fail> {
    let mut list = BoundedList::new(rt.alloc());
    assert!(rt; list.is_empty());
    assert!(rt; list.at(0).is_none());
    for n in 0..5u8 {
        list.reserve()?;
        list.add(n * n);
    }
    assert!(rt; list.len() == 5);
    assert!(rt; list.at(4) == Some(&16));
    assert!(rt; list.at(5).is_none());
    assert!(rt; list.at(u32::MAX).is_none());
    let copy = list.copy_with_room()?;
    assert!(rt; copy == list);
    let items = list.into_vec();
    assert!(rt; items.as_slice() == [0, 1, 4, 9, 16].as_slice());
    assert!(rt; BoundedList::from_vec(items) == copy);
    Ok(())
}

// A list goes to another thread if its entries may.
fn sends<T: Send>(_value: &T) {}

#[test]
fn lists_may_be_sent(rt: HostRuntime) {
    let list: BoundedList<u64> = BoundedList::new(rt.alloc());
    sends(&list);
}
