use depth_first_list::{Quota, Tree, dummies};

#[test]
fn quotas_are_whole_pieces(rt: HostRuntime) {
    let table = [
        (0, None),
        (15, None),
        (16, Some(16)),
        (24, None),
        (4096, Some(4096)),
        (1_048_576, Some(1_048_576)),
        (1_048_592, None),
        (u32::MAX, None),
    ];
    for (k, want) in table {
        assert!(rt; Quota::new(k).map(|quota| quota.get()) == want, "{k}");
    }
}

#[test]
fn dummies_are_the_quotas_needed(rt: HostRuntime) {
    // the words, the quota, the dummies
    let table = [
        (0, 16, 0),
        (16, 16, 0),
        (17, 16, 2),
        (32, 16, 2),
        (48, 16, 3),
        (1_048_576, 16, 65_536),
        (0, 1_048_576, 0),
        (1_048_576, 1_048_576, 0),
        (1_048_592, 1_048_576, 2),
        (48, 32, 2),
    ];
    for (words, k, want) in table {
        let got = Quota::new(k).map(|quota| dummies(words, quota));
        assert!(rt; got == Some(want), "{words} words, quota {k}");
    }
}

#[test]
fn trees_are_halved_with_the_larger_half_first(rt: HostRuntime) {
    assert!(rt; Tree::of(0).is_none());
    assert!(rt; Tree::of(65_537).is_none());
    // the leaves, and the halves
    let table = [
        (1, None),
        (2, Some((1, 1))),
        (3, Some((2, 1))),
        (5, Some((3, 2))),
        (65_535, Some((32_768, 32_767))),
        (65_536, Some((32_768, 32_768))),
    ];
    for (n, want) in table {
        let halves = Tree::of(n).and_then(|tree| tree.halves());
        let got = halves.map(|(child, own)| (child.leaves(), own.leaves()));
        assert!(rt; got == want, "{n} leaves");
    }
}
