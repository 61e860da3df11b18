use crate::branch::Branch;
use crate::list_of::ListOf;
use depth_first_list::Tree;

/// One thing that is left to a thread, by numbers of its code.
#[derive(Clone, Copy, PartialEq, Eq, Debug)]
pub enum Frame {
    /// The statements of a list from the place `next` on.
    Statements { list: ListOf, next: usize },
    /// The loop of this node, once more.
    Again(u32),
    /// A tree of dummies.
    Tree(Tree),
    /// The end of the call of a node, behind which its caller goes on: `caller` is its function, or None where it runs a tree of dummies.
    Answers { node: u32, caller: Option<u32> },
    /// The end of the `split` of this node.
    Rejoins(u32),
    /// The end of `main`.
    AnswersMain,
    /// The allocation of `len` numbers under a slot, behind its dummies.
    Allocates { slot: u16, len: u32 },
    /// The Join of the newest open child.
    Joins(Branch),
}
