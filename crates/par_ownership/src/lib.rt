//! The rules of ownership, and the walk that names the first one that is broken.
//!
//! This layer has the rules as a relation between the visible names before a statement and those after
//! it, and the walk that names the first rule that a program breaks, with the line and the name. It
//! stands on the tree of programs. Its one theorem is that the walk names none exactly where the
//! relation holds.
//!
//! # Why
//!
//! - **A program is accepted if the walk over it refuses nothing** (`IsAccepted`), and clauses about programs cite this. The walk is read
//!   anyway, because it says which refusal is the first. The rules as a relation are one law away, `walk_is_ownership`, and serve proofs.
//! - The environment of the rules is the list of visible names in the order of their declarations, each with its kind, whether it is held, and
//!   the line of its declaration. The line serves the refusal of a block that is not freed, which names the place of the declaration.
//! - After an `if` the relation requires that the same blocks are held after both arms, and after a `while` the same as before it. Nothing that
//!   is gone comes back inside a list, so this is the rule that a loop's body uses no block up.
//! - `check` requires the tree of a text (`IsTreeOfText` of `par_text`), as `parse` gives it, and `Checked` carries that fact. So what the
//!   limits of a text say also holds of an accepted program. The walk itself would answer any tree.
//! - **A `par` walks each of its branches once for its names.** It keeps the visible ones in an ordered set, and then asks for each.
//!   - So these walks cost the product of three: the size of the source; the number of `par`s around a place, which the limit on open
//!     constructs bounds; and the logarithm of the visible names.
//!   - Besides, a name is looked for among the visible names, a called function among the functions, and an argument among those before it, one
//!     after another.
//!   - Names that are not visible are not kept: a source may write as many different ones as it has room for.
//!   - A set by hashes was not taken, since a source can be made whose names collide.
//!   - A test for a name that was not kept walks the statements again, so the contract does not speak of which names are kept.
//! - The sets of a `par` are a public type, and `branch_sets` a public call of `block_check`. The visible names and the search for a `par` are
//!   its own.
//! - The blocks that a call gives away are marked gone, and then the block that it hands back is declared.
//! - In a `split` the two names are declared first and the block is marked gone after them. This is the same, since neither name can be the
//!   block's.
//! - `branch_sets` takes the allocator, since it makes lists. The `par` statements of a function are found by walking it again, so that an
//!   accepted program keeps no table.
//! - Whether two branches share a name is asked of their two sets, once for each visible name, and not of their statements.
#![tactic(auto)]

mod check_kind;
mod laws;

pub use check_kind::CheckKind;
pub use laws::walk_is_ownership;
