use std::alloc::AllocError;
use trail_meaning::TrailNumbers;

/// Why a trail was not accepted.
#[derive(Clone, Copy, PartialEq, Eq, Debug)]
pub enum VerifyFail {
    /// The depth-first run of the program has more actions than the trail allows.
    LongRun {
        /// The most actions of the trail.
        limit: u32,
    },
    /// An event may not come, or after it a limit of the trail is passed.
    BadEvent {
        /// The number of the first such event, from 1.
        event: u32,
    },
    /// Each event may come, but after the last one the root has not ended.
    NotEnded {
        /// The number of events.
        events: u32,
    },
    /// The events are good, but the trail's numbers are not theirs.
    WrongNumbers {
        /// The numbers of the events.
        numbers: TrailNumbers,
    },
    /// There was not enough memory.
    OutOfMemory,
}

impl From<AllocError> for VerifyFail {
    ghost use Rattle.std.specs.Prelude.{◌≡◌};
    ghost use Rattle.trail_check.specs.declared.verify_fail.VerifyFail.TheVariants.{OutOfMemory};

    ghost from_gives = { λ _ fail. fail ≡ OutOfMemory };

    fn from(_error: AllocError) -> VerifyFail {
        VerifyFail::OutOfMemory
    }
}
