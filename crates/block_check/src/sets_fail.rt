/// Why there are no branch sets.
#[derive(Drop)]
pub enum SetsFail {
    /// The numbers name no `par`.
    NoSuchPar,
    /// There was not enough memory.
    OutOfMemory,
}
