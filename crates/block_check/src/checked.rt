ghost use Rattle.std.specs.Prelude.{◌≡◌, IsTrue, is_none};
ghost use Rattle.par_tree.specs.View.{program_tree};
ghost use Rattle.par_text.specs.Trees.{IsTreeOfText};
ghost use Rattle.par_ownership.specs.Walk.{program_refusal};

use crate::branch_sets::BranchSets;
use crate::sets::sets_at;
use crate::sets_fail::SetsFail;
use par_tree::Program;
use std::alloc::Global;

/// A program that keeps the rules of ownership, and is the tree of a text.
#[derive(Drop)]
pub struct Checked {
    pub(crate) program: Program,
    ghost of_text: { IsTreeOfText (program_tree program) },
    ghost accepted: { IsTrue (is_none (program_refusal (program_tree program))) },
}

impl Checked {
    ghost use Rattle.par_ownership.specs.Ownership.{Ownership};
    ghost use Rattle.block_check.specs.Checked.{program_of};
    ghost use Rattle.block_check.specs.Forks.{fork_at};
    ghost use Rattle.block_check.specs.Sets.{GivesSets};

    /// The program.
    pub fn program(&self) -> &Program
        ensures value { result.now ≡ program_of self.now }
        ensures of_text { IsTreeOfText (program_tree result.now) }
        ensures owns { Ownership (program_tree result.now) }
    {
        &self.program
    }

    /// What the branches of a `par` take and give back, so that they can run side by side. Functions
    /// and the `par` statements of a function are numbered from 0, in the order of the text.
    ///
    /// # Errors
    ///
    /// `NoSuchPar` where the numbers name no `par`, and `OutOfMemory` where there is not enough memory
    /// for the lists.
    pub fn branch_sets(&self, alloc: Global, func: u32, par: u32) -> Result<BranchSets, SetsFail>
        ensures { GivesSets (fork_at (program_tree (program_of self.now)) func par) result }
    {
        sets_at(alloc, &self.program.funcs, func, par)
    }
}
