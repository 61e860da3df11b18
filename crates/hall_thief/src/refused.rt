ghost use Rattle.std.specs.Prelude.{◌≡◌};
ghost use Rattle.hall_thief.specs.Refusals.{refusal_of};

use crate::prey::SeekRefused;
use play_rules::{RunEnd, Stop};
use turn_table::Held;

/// Why a thief has not stolen.
#[derive(Clone, Copy, PartialEq, Eq, Debug)]
pub enum StealRefused {
    /// Another seat holds a slot that the thief needs.
    Busy(Held),
    /// No deque in reach has a thread to steal.
    Nothing,
    /// The run has ended so.
    Over(RunEnd),
    /// The steal met this stop.
    Stopped(Stop),
}

/// A refusal of the choice, as one of the steal.
pub(crate) fn refusal_of(refused: SeekRefused) -> StealRefused
    ensures { result ≡ refusal_of refused }
{
    match refused {
        SeekRefused::Busy(held) => StealRefused::Busy(held),
        SeekRefused::Nothing => StealRefused::Nothing,
        SeekRefused::Over(end) => StealRefused::Over(end),
    }
}
