//! Workers that count down, in one thread and in many.
ghost use Rattle.std.specs.Prelude.{◌≡◌};
ghost use Rattle.work_loop.specs.declared.tests.Countdown.{Countdown as AnyCountdown};

use crate::{FreeGate, Gate, Member, Tried, Works, work, work_all};
use std::sync::atomic::{AtomicU64, Ordering};
use std::test::Fail;

/// Counts down to its end; every other try does nothing.
#[derive(Drop)]
struct Countdown {
    number: u32,
    left: u32,
    is_idle: bool,
}

/// All tries that did something, and all that did nothing.
#[derive(Drop)]
struct Tries {
    did: AtomicU64,
    waited: AtomicU64,
}

impl Works<Tries, u32, u32> for Countdown {
    ghost may_try = { λ table code x. Unit {0} };

    ghost is_same = { λ x y. Unit {0} };

    ghost has_ended = { λ x end. AnyCountdown.number x ≡ end };

    fn number(&self) -> u32 {
        self.number
    }

    fn try_once(&mut self, table: &Tries, code: &u32) -> Tried<u32> {
        self.is_idle = !self.is_idle;
        if self.is_idle {
            table.waited.fetch_add(1, Ordering::SeqCst);
            return if self.number % 2 == 0 {
                Tried::Waits
            } else {
                Tried::Idles
            };
        }
        table.did.fetch_add(u64::from(*code), Ordering::SeqCst);
        match self.left.checked_sub(1) {
            Some(left) => {
                self.left = left;
                Tried::Did
            }
            None => Tried::Ended(self.number),
        }
    }

    ghost same_itself = { λ x. tt };

    ghost same_onward = { λ x y z first second. tt };
}

/// Counts how often it was passed.
#[derive(Drop)]
struct Counting {
    passed: AtomicU64,
}

impl Gate for Counting {
    fn pass(&self, worker: u32) {
        self.passed.fetch_add(u64::from(worker), Ordering::SeqCst);
    }
}

fn member(number: u32, left: u32) -> Member<Countdown, u32> {
    Member {
        worker: Countdown {
            number,
            left,
            is_idle: false,
        },
        end: None,
    }
}

#[test]
fn one_worker_passes_the_gate_before_each_try(rt: HostRuntime) -> Result<(), Fail> {
    let tries = Tries {
        did: AtomicU64::new(0),
        waited: AtomicU64::new(0),
    };
    let gate = Counting {
        passed: AtomicU64::new(0),
    };
    let mut alone = member(1, 9).worker;
    let end = work(&rt, &tries, &3, &mut alone, &gate);
    assert_eq!(rt; end, 1);
    assert_eq!(rt; tries.did.load(Ordering::SeqCst), 30);
    assert_eq!(rt; tries.waited.load(Ordering::SeqCst), 10);
    assert_eq!(rt; gate.passed.load(Ordering::SeqCst), 20);
    Ok(())
}

#[test]
fn each_member_has_its_end(rt: HostRuntime) -> Result<(), Fail> {
    let tries = Tries {
        did: AtomicU64::new(0),
        waited: AtomicU64::new(0),
    };
    let mut crew = [member(0, 1000), member(1, 0), member(2, 300), member(3, 50)];
    work_all(&rt, &tries, &1, &mut crew, &FreeGate);
    for (place, member) in (0..4).zip(crew.iter()) {
        assert_eq!(rt; member.end, Some(place));
    }
    assert_eq!(rt; tries.did.load(Ordering::SeqCst), 1354);
    assert_eq!(rt; tries.waited.load(Ordering::SeqCst), 1354);
    let mut none: [Member<Countdown, u32>; 0] = [];
    work_all(&rt, &tries, &1, &mut none, &FreeGate);
    Ok(())
}
