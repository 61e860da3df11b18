use play_rules::RunEnd;
use trail_meaning::Events;

/// A recorded play.
#[derive(PartialEq, Eq, Debug, Drop)]
pub struct Recorded {
    /// How it ended.
    pub end: RunEnd,
    /// What the workers did, first to last. A turn that met a stop is no event.
    pub events: Events,
}
