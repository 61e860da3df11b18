ghost use Rattle.std.specs.Prelude.{◌≡◌, ◌≤◌, ℕ, List, length, IfOk};
ghost use Rattle.par_tree.specs.Tree.{Program as ProgramTree};
ghost use Rattle.par_tree.specs.View.{program_tree};
ghost use Rattle.par_text.specs.Judging.{IsText};
ghost use Rattle.par_text.specs.Lexing.{longest_text};
ghost use Rattle.canonical_text.specs.Canonical.{canonical};
ghost use Rattle.canonical_text.specs.Laws.{IsTextButForLines};

use crate::functions::print_funcs;
use par_tree::Program;
use std::alloc::{AllocError, Global};

/// The canonical text of a program.
///
/// It depends on the tree alone, and not on lines: each statement stands on lines of its own behind
/// two spaces a level, and parentheses stand just where the grammar needs them for the tree. A program
/// that was read is read back from it, wherever it is not too long for a text.
pub fn print(alloc: Global, program: &Program) -> Result<Vec<u8>, AllocError>
    // The bytes are the canonical text, unless memory runs out.
    ensures text { IfOk result (λ text. text.items ≡ canonical (program_tree program.now)) }
    // What is printed of a program that was read is a text of it but for lines, if it is not too long.
    ensures reads_back { (source : List ℕ) → IsText source (program_tree program.now)
        → IfOk result (λ text. length text.items ≤ longest_text → IsTextButForLines text.items (program_tree program.now)) }
    // Printing what is read again gives the same bytes.
    ensures stays { (source : List ℕ) (again : ProgramTree) → IsText source (program_tree program.now)
        → IfOk result (λ text. IsText text.items again → canonical again ≡ text.items) }
{
    let mut text = Vec::new(alloc);
    print_funcs(alloc, &program.funcs, &mut text)?;
    Ok(text)
}
