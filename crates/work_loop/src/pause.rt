//! The pause after a try that did nothing, and the time in which a worker leaves what it held free.

use std::time::{Clock, Duration};
use std::{hint, thread};

/// How many tries for a part that is held are made soon after one another, each wait twice as long as the one before.
const DOUBLINGS: u32 = 6;

/// The turns of the processor in the first wait for a part that is held. An event takes some 20 such turns of its part, so a worker that waits
/// lets the holder do several events before it tries again. Each time that a part changes hands, its memory moves to another core.
const FIRST_WAIT: u32 = 64;

/// How many tries for work are made soon after one another, each pause twice as long as the one before.
const SHORT_PAUSES: u32 = 6;

/// How many tries for work are made before the worker sleeps. They take some 100 microseconds or more, longer than a thread runs before its worker leaves
/// its lane free, so that a worker that looks for work finds each lane free once.
const TRIES_AWAKE: u32 = 250;

/// The microseconds of the first sleep and of the longest one: a worker that finds nothing costs a thirtieth of a processor.
const FIRST_SLEEP: u64 = 50;

const LONGEST_SLEEP: u64 = 3_200;

/// How many turns of the processor a worker leaves what it held free before it takes it again. With none it would take it back before any other
/// sees that it is free.
const FREE_TURNS: u32 = 100;

/// How long a worker pauses after its next try that does nothing.
///
/// A worker without work pauses a turn of the processor at first, and twice as long after each of the next tries; then it only lets other threads
/// run; and after many tries in a row it sleeps, each time twice as long, with as many tries in between. A worker with work, which waits for a part
/// that another one holds, pauses longer at first, and never sleeps.
#[derive(Drop)]
pub(crate) struct Pause {
    /// The tries in a row that did nothing, since it slept.
    tries: u32,
    /// The microseconds of its next sleep.
    sleep: u64,
}

impl Pause {
    pub(crate) fn new() -> Pause {
        Pause {
            tries: 0,
            sleep: FIRST_SLEEP,
        }
    }

    /// Begins again with the shortest pause, after a try that did something.
    pub(crate) fn end(&mut self) {
        self.tries = 0;
        self.sleep = FIRST_SLEEP;
    }

    /// Leaves what the worker held free for a while, after a try that runs on.
    pub(crate) fn let_others_in(&mut self) {
        self.end();
        spin(FREE_TURNS);
    }

    /// Pauses after a try that found a part held, and makes the next such pause longer.
    pub(crate) fn wait_for_part(&mut self) {
        if self.tries < DOUBLINGS {
            self.tries += 1;
        } else {
            thread::yield_now();
        }
        spin(FIRST_WAIT << self.tries.min(DOUBLINGS));
    }

    /// Pauses after a try that found no work, and makes the next such pause longer.
    pub(crate) fn wait_for_work<R: Clock>(&mut self, clock: &R) {
        if self.tries >= TRIES_AWAKE {
            thread::sleep(clock, Duration::from_micros(self.sleep));
            self.sleep = self.sleep.saturating_mul(2).min(LONGEST_SLEEP);
            self.tries = SHORT_PAUSES;
            return;
        }
        if self.tries < SHORT_PAUSES {
            spin(1 << self.tries);
        } else {
            thread::yield_now();
        }
        self.tries += 1;
    }
}

/// Waits for so many turns of the processor.
fn spin(turns: u32) {
    for _ in 0..turns {
        hint::spin_loop();
    }
}
