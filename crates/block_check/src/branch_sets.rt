use par_tree::Name;

/// Names, in the order of their declarations.
pub type Names = Vec<Name>;

/// What the branches of a `par` take and give back, of the names that are declared outside it.
#[derive(Drop)]
pub struct BranchSets {
    /// The blocks that are named in the first branch.
    pub left_blocks: Names,
    /// The blocks that are named in the second branch.
    pub right_blocks: Names,
    /// The integers to which the first branch assigns.
    pub left_assigned: Names,
}
