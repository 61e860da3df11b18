/// A comparison: `==`, `!=`, `<`, `<=`, `>` or `>=`.
#[derive(Clone, Copy)]
pub enum CmpOp {
    Eq,
    Ne,
    Lt,
    Le,
    Gt,
    Ge,
}
