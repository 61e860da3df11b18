ghost use Rattle.std.specs.Prelude.{◌≡◌};
ghost use Rattle.loop_expand.specs.declared.read_fail.ReadFail.TheVariants.{OutOfMemory};

use std::alloc::{AllocError, AllocFailed};

/// Why no loop is read.
#[derive(Drop)]
pub(crate) enum ReadFail {
    /// The tokens begin with none.
    NoLoop,
    OutOfMemory,
}

impl From<AllocError> for ReadFail {
    ghost from_gives = { λ _ e. e ≡ OutOfMemory };

    fn from(_e: AllocError) -> ReadFail {
        ReadFail::OutOfMemory
    }
}

impl<T: Drop> From<AllocFailed<T>> for ReadFail {
    ghost from_gives = { λ _ e. e ≡ OutOfMemory };

    fn from(_e: AllocFailed<T>) -> ReadFail {
        ReadFail::OutOfMemory
    }
}
