use containers::BoundedList;
use dag_order::{Birth, Births, Label, Roster, RosterFail, ThreadId, before, is_in_order};
use std::alloc::Global;
use std::process::Abort;

// The label with these ordinals.
fn label_of(rt: &impl Abort, alloc: Global, ordinals: &[u32]) -> Label {
    let mut label = Label::root(alloc);
    for &ordinal in ordinals {
        label = label.fork(ordinal).expect(rt, "memory");
    }
    label
}

#[test]
fn labels_stand_in_depth_first_order(rt: HostRuntime) {
    let long = [1u32; 256];
    let table: [(&[u32], &[u32], bool); 12] = [
        (&[1], &[], true),
        (&[], &[1], false),
        (&[], &[], false),
        (&[1], &[1], false),
        (&[1], &[2], true),
        (&[2], &[1], false),
        (&[2, 1], &[2], true),
        (&[2], &[2, 1], false),
        (&[1, 9], &[2], true),
        (&[2], &[1, 9], false),
        (&long, &[1], true),
        (&long[..255], &long, false),
    ];
    for (a, b, want) in table {
        let got = before(&label_of(&rt, rt.alloc(), a), &label_of(&rt, rt.alloc(), b));
        assert!(rt; got == want, "{a:?} before {b:?}");
    }
}

#[test]
fn forks_append_their_ordinal(rt: HostRuntime) {
    let root = Label::root(rt.alloc());
    assert!(rt; root.is_empty());
    let child = root.fork(3).expect(&rt, "memory");
    let grandchild = child.fork(u32::MAX).expect(&rt, "memory");
    assert!(rt; grandchild.ordinals() == [3, u32::MAX].as_slice());
    assert!(rt; grandchild.len() == 2);
    assert!(rt; is_in_order(&[grandchild, child, root]));
}

#[test]
fn rosters_follow_births_to_the_root(rt: HostRuntime) {
    let first = ThreadId { period: 1, nth: 0 };
    let second = ThreadId { period: 1, nth: 1 };
    let mut roster = Roster::new(rt.alloc());
    assert!(rt; roster.label(first).err() == Some(RosterFail::Unknown(first)));
    let mut births: Births = BoundedList::new(rt.alloc());
    births.reserve().expect(&rt, "memory");
    births.add(Birth {
        parent: ThreadId::ROOT,
        ordinal: 1,
    });
    births.reserve().expect(&rt, "memory");
    births.add(Birth {
        parent: first,
        ordinal: 2,
    });
    assert!(rt; roster.add_period(births).is_ok());
    let table: [(ThreadId, &[u32]); 3] = [(ThreadId::ROOT, &[]), (first, &[1]), (second, &[1, 2])];
    for (id, want) in table {
        assert!(rt; roster.label(id).expect(&rt, "memory").ordinals() == want);
    }
    let missing = ThreadId { period: 1, nth: 2 };
    assert!(rt; roster.label(missing).err() == Some(RosterFail::Unknown(missing)));
    assert!(rt; roster.periods() == 1);
}
