ghost use Rattle.std.specs.Prelude.{◌≡◌, ℕ, ◌+◌, ◌*◌, ◌/◌, ◌≤◌, ◌<◌, ◌↔◌, IsSome, IfSome, MatchOption};
ghost use Rattle.depth_first_list.specs.Leaves.{IsTreeSize};

use language_limits::MOST_LEAVES;

/// A tree of dummy threads, by its number of leaves, from 1 to 65,536.
///
/// The tree of one leaf is one dummy. A larger tree forks a child that runs one half and ends, runs the
/// other half, and joins the child; where the halves differ the child has the larger one.
#[derive(Clone, Copy, PartialEq, Eq, Debug)]
pub struct Tree {
    leaves: u32,
    pub ghost in_range: { IsTreeSize leaves },
}

impl Tree {
    ghost use Rattle.depth_first_list.specs.TreeLeaves.{tree_leaves};
    ghost use Rattle.depth_first_list.specs.Shapes.{leaf, forked, shape_of, IsShapeOf, HasCounts};

    /// None exactly where `n` is not from 1 to 65,536.
    pub fn of(n: u32) -> Option<Tree>
        ensures some { IsSome result ↔ IsTreeSize n }
        ensures leaves { IfSome result (λ tree. tree_leaves tree ≡ n) }
    {
        if 1 <= n && n <= MOST_LEAVES {
            Some(Tree { leaves: n })
        } else {
            None
        }
    }

    /// How many dummies are the leaves.
    pub fn leaves(&self) -> u32
        ensures leaves { result ≡ tree_leaves self.now }
        ensures size { IsTreeSize result }
        ensures shape { IsShapeOf result (shape_of result) }
        ensures counts { HasCounts result (shape_of result) }
    {
        self.leaves
    }

    /// What the child runs, and what the thread itself runs; None exactly for one leaf.
    pub fn halves(&self) -> Option<(Tree, Tree)>
        ensures some { IsSome result ↔ (1 < tree_leaves self.now) }
        ensures child { IfSome result (λ halves. tree_leaves halves.0 ≡ (tree_leaves self.now + 1) / 2) }
        ensures own { IfSome result (λ halves. tree_leaves halves.1 ≡ tree_leaves self.now / 2) }
        ensures shape { MatchOption result (shape_of (tree_leaves self.now) ≡ leaf)
            (λ halves. shape_of (tree_leaves self.now) ≡ forked (shape_of (tree_leaves halves.0)) (shape_of (tree_leaves halves.1))) }
    {
        if self.leaves == 1 {
            return None;
        }
        Some((
            Tree {
                leaves: self.leaves.div_ceil(2),
            },
            Tree {
                leaves: self.leaves / 2,
            },
        ))
    }
}
