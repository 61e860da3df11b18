use crate::source::SourceFailed;
use std::alloc::AllocError;

/// Why a source could not be read to its end.
#[derive(Clone, Copy, PartialEq, Eq, Debug)]
pub enum ReadFail {
    /// A call of the source failed.
    Fault,
    /// There was no memory for the bytes.
    OutOfMemory,
}

impl From<SourceFailed> for ReadFail {
    ghost use Rattle.std.specs.Prelude.{◌≡◌};
    ghost use Rattle.byte_streams.specs.declared.read_fail.ReadFail.TheVariants.{Fault};

    ghost from_gives = { λ _ fail. fail ≡ Fault };

    fn from(_: SourceFailed) -> ReadFail {
        ReadFail::Fault
    }
}

impl From<AllocError> for ReadFail {
    ghost use Rattle.std.specs.Prelude.{◌≡◌};
    ghost use Rattle.byte_streams.specs.declared.read_fail.ReadFail.TheVariants.{OutOfMemory};

    ghost from_gives = { λ _ fail. fail ≡ OutOfMemory };

    fn from(_: AllocError) -> ReadFail {
        ReadFail::OutOfMemory
    }
}
