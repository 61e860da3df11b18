use crate::trail_kind::TrailKind;

/// One event of a play.
#[derive(Clone, Copy, PartialEq, Eq, Debug)]
pub struct TrailEvent {
    /// The worker that moved, from 0.
    pub worker: u32,
    /// What it did.
    pub kind: TrailKind,
}
