use play_rules::{RunEnd, Stop};
use turn_table::Held;

/// Why no worker entered.
#[derive(Clone, Copy, PartialEq, Eq, Debug)]
pub enum EnterRefused {
    /// The seat has one place, which is its own.
    Crowded { places: u32 },
    /// Another seat holds the list.
    Busy(Held),
    /// The run has ended so.
    Over(RunEnd),
    OutOfMemory,
}

/// Why a seat did no event.
#[derive(Clone, Copy, PartialEq, Eq, Debug)]
pub enum EventRefused {
    /// Another seat holds a slot that the event needs.
    Busy(Held),
    /// No deque in reach has a thread to steal.
    Nothing,
    /// The run has ended so.
    Over(RunEnd),
    /// The seat found this stop, now or before.
    Stopped(Stop),
}

/// Why a seat did not leave.
#[derive(Clone, Copy, PartialEq, Eq, Debug)]
pub enum LeaveRefused {
    /// Another seat holds a slot that the seat needs.
    Busy(Held),
    OutOfMemory,
}

/// Why a hall was not closed.
#[derive(Clone, Copy, PartialEq, Eq, Debug)]
pub enum CloseRefused {
    /// The seat has so many places, and not all.
    StillIn { places: u32 },
    /// No end is kept.
    NotOver,
    OutOfMemory,
}
