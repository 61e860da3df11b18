//! Each command over streams that fail.
use crate::calls::{Failing, Host, call, is_right, lines_of};
use dfd_run::Status;
use std::alloc::Global;
use std::test::Fail;

/// The parts of a row of a table; those that it does not have are empty.
fn parts_of(row: &str) -> [&str; 7] {
    let mut parts = [""; 7];
    for (place, part) in row.trim_end().split('|').enumerate() {
        if place < 7 {
            parts[place] = part;
        }
    }
    parts
}

fn number(part: &str) -> Result<u32, Fail> {
    Ok(part.parse::<u32>().ok().ok_or("no number")?)
}

/// Compares a call with what is due: the number of the status, and the text. In the text and in the source a `~` ends a line.
fn answers_so(
    rt: &impl Host,
    alloc: Global,
    line: &str,
    source: &str,
    failing: Failing,
    code: &str,
    text: &str,
) -> Result<(), Fail> {
    assert!(rt; failing.most >= 1);
    let (status, written) = call(rt, alloc, line, &lines_of(alloc, source)?, failing)?;
    let due = lines_of(alloc, text)?;
    assert_eq!(rt; written.as_slice(), due.as_slice(), "at {line:?}");
    is_right(
        rt,
        code.parse::<u8>().ok() == Some(status.code()),
        line,
        code,
    );
    Ok(())
}

/// A row is the words, the call at which the source fails, how many bytes the sink takes a call, the call at which it fails, the number of
/// the status, what the sink took, and the source.
const TAKEN: &str = "\
play --k 64 --p 1|0|10|1|3||fn main() { alloc b = 20; b[3] = 7; print b[3]; free b; }
@play --k 64 --p 1|0|10|2|3|7~--~end d|fn main() { alloc b = 20; b[3] = 7; print b[3]; free b; }
@play --k 64 --p 1|0|10|3|3|7~--~end done~period|fn main() { alloc b = 20; b[3] = 7; print b[3]; free b; }
@play --k 64 --p 1|0|10|4|3|7~--~end done~periods 1~ahead |fn main() { alloc b = 20; b[3] = 7; print b[3]; free b; }
@play --k 64 --p 1|0|10|5|0|7~--~end done~periods 1~ahead 0~high 32~|fn main() { alloc b = 20; b[3] = 7; print b[3]; free b; }
@play --k 64 --p 1|0|4|2|3|1~2~|fn main() { par { print 1; } and { print 2; } print 3; }
@play --k 64 --p 1|1|4|2|3|read|fn main() { par { print 1; } and { print 2; } print 3; }
@play --k 64 --p 1|0|4|2|3|synt|
@run --p 1|0|4|2|3|1~2~|fn main() { par { print 1; } and { print 2; } print 3; }
@run --p 1|1|4|4|2|read fault~|
@play --k 64 --p 1|1|4|4|2|read fault~|
@peak --k 64|0|4|0|0|7~--~end done~actions 3~peak 32~|fn main() { alloc b = 20; b[3] = 7; print b[3]; free b; }
@peak --k 64|0|4|2|3|7~--|fn main() { alloc b = 20; b[3] = 7; print b[3]; free b; }
@peak --k 64|1|4|0|2|read fault~|fn main() { alloc b = 20; b[3] = 7; print b[3]; free b; }
@peak --k 64|1|4|2|3|read|fn main() { alloc b = 20; b[3] = 7; print b[3]; free b; }";

#[test]
fn failing_sinks_took_a_front(rt: HostRuntime) -> Result<(), Fail> {
    for row in TAKEN.split('@') {
        let [line, read, most, write, code, text, source] = parts_of(row);
        let failing = Failing {
            read: number(read)?,
            most: number(most)? as usize,
            write: number(write)?,
        };
        answers_so(&rt, rt.alloc(), line, source, failing, code, text)?;
    }
    Ok(())
}

/// A sink of 7 bytes a call that fails took a front of the text: a piece for each call before.
fn took_a_front(
    rt: &impl Host,
    alloc: Global,
    line: &str,
    source: &str,
    before: u32,
    text: &str,
) -> Result<(), Fail> {
    let failing = Failing {
        read: 0,
        most: 7,
        write: before.saturating_add(1),
    };
    let (status, written) = call(rt, alloc, line, &lines_of(alloc, source)?, failing)?;
    let fails = status == Status::WriteFault && written.len() as u64 == 7 * u64::from(before);
    is_right(rt, fails, line, "a write fault after as many pieces");
    is_right(rt, lines_of(alloc, text)?.starts_with(&written), line, text);
    Ok(())
}

/// The source fails at each of its calls in turn, and then the sink does. At a call that does not come neither does.
fn each_call_fails(rt: &impl Host, alloc: Global, row: &str) -> Result<(), Fail> {
    let [line, reads, code, text, writes, source, _] = parts_of(row);
    for before in 0..number(reads)? {
        let failing = Failing {
            read: before + 1,
            most: 256,
            write: 0,
        };
        answers_so(rt, alloc, line, source, failing, "2", "read fault~")?;
    }
    for before in 0..number(writes)? {
        took_a_front(rt, alloc, line, source, before, text)?;
    }
    for call in [0, 99] {
        let failing = Failing {
            read: call,
            most: 7,
            write: call,
        };
        answers_so(rt, alloc, line, source, failing, code, text)?;
    }
    Ok(())
}

/// A row is the words, how many calls read the source, the number of the status, the text, how many calls write it, and the source.
const CALLS: &str = "\
play --k 64 --p 1|7|0|7~--~end done~periods 1~ahead 0~high 32~|6|fn main() { alloc b = 20; b[3] = 7; print b[3]; free b; }
@async --k 16 --p 1|7|0|1~2~3~--~end done~periods 2~ahead 0~high 16~|7|fn main() { par { print 1; } and { print 2; } print 3; }
@run --k 64 --p 1|7|0|7~--~end done~periods 1~ahead 0~high 32~|6|fn main() { alloc b = 20; b[3] = 7; print b[3]; free b; }
@loops --seed 18446744073709551615 --deques=1 --steps 4 --arena=16 --p 1|7|0|1~2~3~--~end done~periods 1~ahead 0~high 16~|7|fn main() { par { print 1; } and { print 2; } print 3; }
@make 1 --p 1|0|0|bytes 139~lines 2~total 0~actions 8~periods 1~ahead 0~high 32~|9|
@trail --k 16 --p 1|3|0|trail k 16 p 1 arena 1048576 steps 400000 deques 4096~source 13~fn main() { }~0 steal 0~0 act~end periods 1 ahead 0 high 0~|18|fn main() { }
@verify|14|0|trail ok~periods 1~ahead 0~high 0~actions 1~|7|trail k 16 p 1 arena 1048576 steps 400000 deques 4096~source 13~fn main() { }~0 steal 0~0 act~end periods 1 ahead 0 high 0~
@verify|1|11|trail NotTrail at 0~|3|
@check|7|0|fn main() {~  alloc b = 20;~  b[3] = 7;~  print b[3];~  free b;~}~|10|fn main() { alloc b = 20; b[3] = 7; print b[3]; free b; }
@check|4|5|check UnknownName line 1 name b~|5|fn main() { free b; }
@check|3|4|syntax Expected at 11~|4|fn main() {
@peak|7|0|7~--~end done~actions 3~peak 32~|5|fn main() { alloc b = 20; b[3] = 7; print b[3]; free b; }
@peak|4|6|--~end fault Divide line 1~actions 2~peak 0~|7|fn main() { print 1 / 0; }
@peak|3|4|syntax Expected at 11~|4|fn main() {
@peak|4|5|check UnknownName line 1 name b~|5|fn main() { free b; }
@peak --steps 1|4|7|stop StepsSpent limit 1~|4|fn main() { print 1 / 0; }
@expand|7|0|fn main() { alloc b = 20; b[3] = 7; print b[3]; free b; }|9|fn main() { alloc b = 20; b[3] = 7; print b[3]; free b; }
@expand|3|4|syntax BadLoop at 12~|3|fn main() { par call
@loops|3|4|syntax Expected at 11~|4|fn main() {";

/// A source of 10 bytes a call that fails at each of its calls in turn, and a sink of 7 bytes a call that does.
#[test]
fn each_call_of_a_stream_may_fail(rt: HostRuntime) -> Result<(), Fail> {
    for row in CALLS.split('@') {
        each_call_fails(&rt, rt.alloc(), row)?;
    }
    Ok(())
}
