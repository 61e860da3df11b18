use dag_order::{FaultAt, FaultKind, Finish, Lines};
use run_report::{ReadFail, Report, read_report, report_text};
use std::alloc::{AllocError, Global};
use std::process::Abort;
use std::test::Fail;

fn lines(alloc: Global, numbers: &[i64]) -> Result<Lines, AllocError> {
    let mut lines = Lines::new(alloc);
    for number in numbers {
        lines.reserve()?;
        lines.add(*number);
    }
    Ok(lines)
}

/// A report is written so, and read from its text.
fn is_written_and_read(
    rt: &impl Abort,
    alloc: Global,
    report: &Report,
    due: &str,
) -> Result<(), Fail> {
    let text = report_text(alloc, report)?;
    assert!(rt; text.as_slice() == due.as_bytes(), "{due}");
    match read_report(alloc, due.as_bytes()) {
        Ok(read) => assert!(rt; read == *report),
        Err(_) => panic!(rt; "{due}"),
    }
    Ok(())
}

#[test]
fn a_report_is_written_and_read(rt: HostRuntime) -> Result<(), Fail> {
    let report = Report {
        lines: lines(rt.alloc(), &[7])?,
        finish: Finish::Done,
        periods: 1,
        ahead: 0,
        high: 32,
    };
    let due = "7\n--\nend done\nperiods 1\nahead 0\nhigh 32\n";
    is_written_and_read(&rt, rt.alloc(), &report, due)
}

#[test]
fn numbers_at_the_ends_of_their_types(rt: HostRuntime) -> Result<(), Fail> {
    let report = Report {
        lines: lines(rt.alloc(), &[i64::MIN, -1, 0, i64::MAX])?,
        finish: Finish::Faulted(FaultAt {
            kind: FaultKind::Turns,
            line: u32::MAX,
        }),
        periods: u32::MAX,
        ahead: u32::MAX,
        high: u64::MAX,
    };
    is_written_and_read(
        &rt,
        rt.alloc(),
        &report,
        "-9223372036854775808\n-1\n0\n9223372036854775807\n--\nend fault Turns line 4294967295\nperiods 4294967295\nahead 4294967295\nhigh 18446744073709551615\n",
    )
}

/// The place at which bytes are no report, and the bytes.
const NO_REPORTS: &str = "0|\
@32|7\n--\nend done\nperiods 1\nahead 0\nhigh 32\
@32|7\n--\nend done\nperiods 1\nahead 0\n\
@40|7\n--\nend done\nperiods 1\nahead 0\nhigh 32\n\n\
@40|7\n--\nend done\nperiods 1\nahead 0\nhigh 32\nx\
@14|7\n--\nend done\nactions 442\npeak 65632\n\
@0|end done\n--\n\
@2|7\nend done\nperiods 1\nahead 0\nhigh 32\n\
@5|7\n--\n--\n\
@2|7\n\
@0|7\
@0|+7\n\
@0|07\n\
@2|1\n-0\n\
@0|-\n\
@0|\n--\n\
@0|9223372036854775808\n\
@3|--\nend fault Index line 4294967296\n\
@3|--\nend fault Indexes line 1\n\
@3|--\nend fault Index line 01\n\
@12|--\nend done\nperiods 4294967296\n\
@22|--\nend done\nperiods 1\nahead -1\n\
@3|--\nend done\r\n";

#[test]
fn bytes_that_are_no_report(rt: HostRuntime) -> Result<(), Fail> {
    for row in NO_REPORTS.split('@') {
        let (place, text) = row.split_once('|').ok_or("no row")?;
        let at = place.parse::<u32>().ok().ok_or("no place")?;
        let read = read_report(rt.alloc(), text.as_bytes());
        assert!(rt; read == Err(ReadFail::NotReport { at }), "{text}");
    }
    Ok(())
}
