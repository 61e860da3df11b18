use play_rules::RunEnd;
use turn_table::Held;

/// Why no worker entered.
#[derive(Clone, Copy, PartialEq, Eq, Debug)]
pub enum EnterRefused {
    /// Another seat holds the list.
    Busy(Held),
    /// The run has ended so.
    Over(RunEnd),
    OutOfMemory,
}
