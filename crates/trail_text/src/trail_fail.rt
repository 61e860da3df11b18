use std::alloc::AllocError;

/// Why bytes were not read as a trail.
#[derive(Clone, Copy, PartialEq, Eq, Debug)]
pub enum TrailFail {
    /// The bytes are the text of no trail.
    NotTrail {
        /// The first byte, from 0, of the first line that breaks the form, or the length if a line is missing. The bytes of the
        /// source belong to the second line. If there are more than 33,554,432 bytes, the place is this number.
        at: u32,
    },
    /// There was not enough memory.
    OutOfMemory,
}

impl From<AllocError> for TrailFail {
    ghost use Rattle.std.specs.Prelude.{◌≡◌};
    ghost use Rattle.trail_text.specs.declared.trail_fail.TrailFail.TheVariants.{OutOfMemory};

    ghost from_gives = { λ _ fail. fail ≡ OutOfMemory };

    fn from(_error: AllocError) -> TrailFail {
        TrailFail::OutOfMemory
    }
}
