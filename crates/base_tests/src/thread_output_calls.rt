use dag_order::{FaultAt, FaultKind};
use std::process::Abort;
use std::test::Fail;
use thread_output::Told;

// A part that prints some numbers, and then meets a fault at this line, if at any.
fn part(rt: &(impl Abort + AllocGlobal), numbers: &[i64], line: Option<u32>) -> Result<Told, Fail> {
    let mut told = Told::new(rt.alloc());
    for number in numbers {
        if told.fault().is_none() {
            told.print(*number)?;
        }
    }
    if let Some(line) = line {
        told.mark(at(line));
    }
    Ok(told)
}

fn at(line: u32) -> FaultAt {
    FaultAt {
        kind: FaultKind::Index,
        line,
    }
}

#[test]
fn parts_behind_a_fault_tell_nothing(rt: HostRuntime) -> Result<(), Fail> {
    // the fault of the first part, of the second and of the third, the last number that is told, and the first fault
    let cases = [
        (None, None, None, 6, None),
        (None, None, Some(9), 6, Some(9)),
        (None, Some(8), None, 4, Some(8)),
        (None, Some(8), Some(9), 4, Some(8)),
        (Some(7), None, None, 2, Some(7)),
        (Some(7), Some(8), Some(9), 2, Some(7)),
    ];
    for (first, second, third, last, fault) in cases {
        let left = part(&rt, &[1, 2], first)?.then(part(&rt, &[3, 4], second)?);
        let left = left.then(part(&rt, &[5, 6], third)?);
        let right = part(&rt, &[3, 4], second)?.then(part(&rt, &[5, 6], third)?);
        let right = part(&rt, &[1, 2], first)?.then(right);
        let all = [1, 2, 3, 4, 5, 6];
        for told in [left, right] {
            let lines = told.lines(rt.alloc())?;
            assert!(rt; lines.as_slice().last().copied() == Some(last));
            assert!(rt; all.starts_with(lines.as_slice()));
            assert!(rt; told.fault().map(|fault| fault.line) == fault);
        }
    }
    Ok(())
}

#[test]
fn the_first_fault_stays(rt: HostRuntime) -> Result<(), Fail> {
    let mut told = part(&rt, &[1], Some(3))?;
    told.mark(at(4));
    assert!(rt; told.fault() == Some(at(3)));
    let told = Told::new(rt.alloc()).then(Told::new(rt.alloc()));
    assert!(rt; (told.fault(), told.lines(rt.alloc())?.len()) == (None, 0));
    Ok(())
}
