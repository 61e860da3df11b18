use dag_order::FaultKind;

/// Why a statement is not done. The thread is as it was.
#[derive(Clone, Copy)]
pub enum Stop {
    /// The statement is a fault. Its action is the next one of the thread.
    Fault(FaultKind),
    /// There is not enough memory.
    OutOfMemory,
}
