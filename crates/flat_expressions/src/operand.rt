/// Where the number of an operand is.
#[derive(Clone, Copy)]
pub enum Operand {
    /// In a slot.
    Slot(u16),
    /// In the act itself.
    Number(i64),
}
