use depth_first_list::Quota;
use open_periods::{Charge, Period};
use std::test::Fail;

#[test]
fn allocations_are_charged_gross(rt: HostRuntime) -> Result<(), Fail> {
    // the quota, the words noted before, the words asked for, and the answer
    let table = [
        (16, 0, 0, Charge::Fits),
        (16, 0, 16, Charge::Fits),
        (16, 0, 32, Charge::Large),
        (16, 16, 0, Charge::Fits),
        (16, 16, 16, Charge::Ends),
        (32, 16, 16, Charge::Fits),
        (32, 16, 32, Charge::Ends),
        (32, 0, 48, Charge::Large),
        (1_048_576, 0, 1_048_576, Charge::Fits),
        (1_048_576, 16, 1_048_576, Charge::Ends),
        (1_048_576, 1_048_576, 0, Charge::Fits),
    ];
    for (k, used, words, want) in table {
        assert!(rt; used <= 1_048_576);
        let mut period = Period::start(rt.alloc(), 1, false)?;
        period.note(used);
        let got = Quota::new(k).map(|quota| period.charge(words, quota));
        assert!(rt; got == Some(want), "{words} words after {used} of {k}");
    }
    Ok(())
}
