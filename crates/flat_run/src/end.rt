use dag_order::FaultKind;

/// Why flat code does not go on.
#[derive(Clone, Copy, PartialEq, Eq, Debug)]
pub enum End {
    /// It ends here: with a statement that the thread does by itself, or with a list that the thread does not leave by itself.
    Leaves,
    /// The statement meets a fault. A loop that has no turn left meets `Turns`.
    Faults(FaultKind),
}
