use crate::fault::FaultAt;

/// How a run that came to its end finished.
#[derive(Clone, Copy, PartialEq, Eq, Debug)]
pub enum Finish {
    Done,
    /// The first fault in depth-first order.
    Faulted(FaultAt),
}
