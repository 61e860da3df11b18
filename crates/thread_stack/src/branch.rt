/// What a forked child runs.
#[derive(Clone, Copy, PartialEq, Eq, Debug)]
pub enum Branch {
    /// The first branch of the `par` of this node.
    Par(u32),
    /// A tree of dummies.
    Dummies,
}
