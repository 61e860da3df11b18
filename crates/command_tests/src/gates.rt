//! Runs that a gate forces: it decides who goes on, so two gates make two runs of the same words.
use crate::calls::{Host, is_right, lines_of, words_of};
use dfd_run::{CleanSink, CleanSource, Gate, Status, dfd};
use std::alloc::{AllocError, Global};
use std::sync::atomic::{AtomicU64, Ordering};
use std::test::Fail;

/// How long a worker is held at most.
const MOST_TURNS: u32 = 1_000_000_000;

/// How the workers of a run are forced to go on.
#[derive(Clone, Copy)]
enum Forced {
    /// The second one steals the root directly after its Fork.
    Beside,
    /// The first one does the whole run before the second one begins.
    Alone,
    /// After two Forks by the first one, the second one steals the root and the third one its child.
    ByThree,
}

/// A gate for at most three workers, which counts how often each of them has come.
#[derive(Drop)]
struct Forcing {
    first: AtomicU64,
    second: AtomicU64,
    third: AtomicU64,
    forced: Forced,
    /// Whether a worker was held longer than may be.
    has_failed: AtomicU64,
}

impl Forcing {
    fn new(forced: Forced) -> Forcing {
        Forcing {
            first: AtomicU64::new(0),
            second: AtomicU64::new(0),
            third: AtomicU64::new(0),
            forced,
            has_failed: AtomicU64::new(0),
        }
    }

    /// Waits until a count has come so far.
    fn hold(&self, count: &AtomicU64, until: u64) {
        for _ in 0..MOST_TURNS {
            if until <= count.load(Ordering::SeqCst) {
                return;
            }
        }
        self.has_failed.store(1, Ordering::SeqCst);
    }
}

impl Gate for Forcing {
    fn pass(&self, worker: u32) {
        let count = match worker {
            0 => &self.first,
            1 => &self.second,
            _ => &self.third,
        };
        let came = count.fetch_add(1, Ordering::SeqCst);
        match (self.forced, worker, came) {
            (Forced::Beside, 0, 2) => self.hold(&self.second, 2),
            (Forced::Beside, 1, 0) => self.hold(&self.first, 3),
            (Forced::Alone, 1, 0) => self.hold(&self.first, 6),
            (Forced::ByThree, 0, 3) => self.hold(&self.third, 2),
            (Forced::ByThree, 1, 0) => self.hold(&self.first, 4),
            (Forced::ByThree, 1, 1) => self.hold(&self.third, 2),
            (Forced::ByThree, 2, 0) => self.hold(&self.second, 2),
            _ => (),
        }
    }
}

/// What the workers of these words write with this gate. It hands no clause on, since each goal of its callers would carry it.
fn written(
    rt: &impl Host,
    alloc: Global,
    line: &str,
    program: &str,
    gate: &Forcing,
) -> Result<(Status, Vec<u8>), AllocError> {
    let mut source = CleanSource::new(Vec::from_slice(alloc, program.as_bytes())?);
    let mut sink = CleanSink::new(alloc, 64)?;
    let words = words_of(alloc, line)?;
    let status = dfd(rt, alloc, &words, &mut source, &mut sink, gate);
    Ok((status, Vec::from_slice(alloc, sink.kept())?))
}

/// The workers write this with this gate, and nobody was held for too long.
fn is_forced(
    rt: &impl Host,
    alloc: Global,
    line: &str,
    program: &str,
    gate: &Forcing,
    want: &str,
) -> Result<(), Fail> {
    let (status, text) = written(rt, alloc, line, program, gate)?;
    is_right(rt, status == Status::Done, line, "done");
    is_right(rt, text == lines_of(alloc, want)?, line, want);
    is_right(
        rt,
        gate.has_failed.load(Ordering::SeqCst) == 0,
        line,
        "nobody waits for ever",
    );
    Ok(())
}

/// The second worker steals the root directly after its Fork, or the first one does the whole run before the second one begins.
#[test]
fn a_gate_decides_who_works(rt: HostRuntime) -> Result<(), Fail> {
    let program = "fn main() { par { print 1; } and { print 2; } print 3; }";
    for (forced, want) in [
        (
            Forced::Beside,
            "1~2~3~--~end done~periods 2~ahead 1~high 16~",
        ),
        (
            Forced::Alone,
            "1~2~3~--~end done~periods 1~ahead 0~high 16~",
        ),
    ] {
        is_forced(
            &rt,
            rt.alloc(),
            "run --p 2",
            program,
            &Forcing::new(forced),
            want,
        )?;
    }
    Ok(())
}

/// Each of three workers does a part: after two Forks there are two records, and both thieves begin to the right of a deque. Whoever waits is
/// run by the one that ends its child, so nobody steals again.
#[test]
fn a_gate_lets_three_workers_work(rt: HostRuntime) -> Result<(), Fail> {
    is_forced(
        &rt,
        rt.alloc(),
        "run --p 3",
        "fn main() { par { par { print 1; } and { print 2; } } and { print 3; } print 4; }",
        &Forcing::new(Forced::ByThree),
        "1~2~3~4~--~end done~periods 3~ahead 2~high 32~",
    )
}
