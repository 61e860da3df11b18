use crate::stop::Stop;
use dag_order::Finish;

/// How a run ended.
#[derive(Clone, Copy, PartialEq, Eq, Debug)]
pub enum RunEnd {
    /// The root came to its end.
    Finished(Finish),
    /// The run was stopped before.
    Stopped(Stop),
}
