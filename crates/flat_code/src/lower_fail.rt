use std::alloc::AllocError;

/// Why there is no flat code.
#[derive(Clone, Copy, PartialEq, Eq, Debug)]
pub enum LowerFail {
    /// There is not enough memory.
    OutOfMemory,
    /// There are more places than numbers of them.
    TooLong,
}

impl From<AllocError> for LowerFail {
    ghost use Rattle.std.specs.Prelude.{◌≡◌};
    ghost use Rattle.flat_code.specs.declared.lower_fail.LowerFail.TheVariants.{OutOfMemory};

    ghost from_gives = { λ _ fail. fail ≡ OutOfMemory };

    fn from(_error: AllocError) -> LowerFail {
        LowerFail::OutOfMemory
    }
}
