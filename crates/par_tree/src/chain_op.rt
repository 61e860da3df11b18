/// An operator of a chain. `Add` and `Sub` make sums, the others make terms.
#[derive(Clone, Copy)]
pub enum ChainOp {
    Add,
    Sub,
    Mul,
    Div,
    Rem,
}
