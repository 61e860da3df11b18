ghost use Rattle.std.specs.Prelude.{◌≡◌, None};
ghost use Rattle.thread_map.specs.Kept.{kept_under};

use dag_order::ThreadId;
use std::process::Abort;
use std::test::Fail;
use thread_map::ThreadMap;

// Keeps a number under an id that is free.
fn put(rt: &impl Abort, map: &mut ThreadMap<u32>, id: ThreadId, value: u32) -> Result<(), Fail> {
    map.reserve()?;
    match map.get(id) {
        None => {}
        Some(_) => panic!(rt; "the id is not free"),
    }
    map.put(id, value);
    Ok(())
}

#[test]
fn each_id_keeps_its_own(rt: HostRuntime) -> Result<(), Fail> {
    let mut map = ThreadMap::new(rt.alloc());
    let ids = [
        (0, 0),
        (1, 0),
        (0, 1),
        (1, 1),
        (4_294_967_295, 7),
        (7, 4_294_967_295),
    ];
    for (i, (period, nth)) in ids.into_iter().enumerate() {
        let id = ThreadId { period, nth };
        assert!(rt; i < 8 && !map.has(id), "{i}");
        put(&rt, &mut map, id, i as u32)?;
        assert!(rt; (map.len(), map.get(id)) == (i + 1, Some(&(i as u32))));
    }
    for (i, (period, nth)) in ids.into_iter().enumerate() {
        let id = ThreadId { period, nth };
        assert!(rt; i < 8 && map.has(id), "{i}");
        if let Some(value) = map.get_mut(id) {
            *value = value.wrapping_add(100);
        }
        assert!(rt; (map.take(id), map.take(id)) == (Some(i as u32 + 100), None));
        assert!(rt; map.get(id).is_none());
    }
    assert!(rt; map.len() == 0);
    Ok(())
}

// Many threads wait, most of them are taken, and others come.
#[test]
fn maps_grow(rt: HostRuntime) -> Result<(), Fail> {
    let mut map = ThreadMap::new(rt.alloc());
    for round in 1..4 {
        for nth in 0..70_000 {
            put(&rt, &mut map, ThreadId { period: round, nth }, nth)?;
        }
        for nth in 0..69_000u32 {
            assert!(rt; map.take(ThreadId { period: round, nth }) == Some(nth));
        }
        assert!(rt; map.len() == 1_000 * round as usize);
    }
    let (kept, gone) = (
        ThreadId {
            period: 2,
            nth: 69_500,
        },
        ThreadId {
            period: 2,
            nth: 68_999,
        },
    );
    assert!(rt; map.get(kept) == Some(&69_500) && map.get(gone).is_none());
    Ok(())
}
