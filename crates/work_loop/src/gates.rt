/// What each worker passes before each try, so that a test may decide who goes on.
pub trait Gate {
    /// Lets the worker of this number pass, now or later.
    fn pass(&self, worker: u32);
}

/// A gate that is always open.
#[derive(Clone, Copy, PartialEq, Eq, Debug)]
pub struct FreeGate;

impl Gate for FreeGate {
    fn pass(&self, _worker: u32) {}
}
