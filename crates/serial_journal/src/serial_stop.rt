ghost use Rattle.std.specs.Prelude.{◌≡◌};

use std::alloc::AllocError;

/// Why a depth-first run is not done to its end.
#[derive(Clone, Copy, PartialEq, Eq, Debug)]
pub enum SerialStop {
    /// It has more actions than were allowed.
    StepsSpent,
    /// There was not enough memory. Numbers of live words beyond 63 bits, which no memory holds, are counted as this.
    OutOfMemory,
}

impl From<AllocError> for SerialStop {
    ghost use Rattle.std.specs.Prelude.{◌≡◌};
    ghost use Rattle.serial_journal.specs.declared.serial_stop.SerialStop.TheVariants.{OutOfMemory};

    ghost from_gives = { λ _ stop. stop ≡ OutOfMemory };

    fn from(_error: AllocError) -> SerialStop {
        SerialStop::OutOfMemory
    }
}
