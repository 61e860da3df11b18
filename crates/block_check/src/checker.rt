//! The checker's public call.

ghost use Rattle.std.specs.Prelude.{◌≡◌, IfOk};
ghost use Rattle.std.specs.Option.{option_map};
ghost use Rattle.par_tree.specs.View.{program_tree};
ghost use Rattle.par_text.specs.Trees.{IsTreeOfText};
ghost use Rattle.par_ownership.specs.Walk.{program_refusal};
ghost use Rattle.block_check.specs.Checked.{Checks, error_shown};

use crate::check_error::CheckError;
use crate::check_fail::CheckFail;
use crate::checked::Checked;
use crate::functions;
use crate::refusal::Fail;
use par_tree::{Name, Program};
use std::alloc::{AllocError, Global};

/// The first refusal of a program, with a name of its own.
fn first_refusal(alloc: Global, program: &Program) -> Result<Option<CheckError>, AllocError>
    ensures { IfOk result (λ o. option_map error_shown o ≡ program_refusal (program_tree program.now)) }
{
    match functions::program(alloc, &program.funcs) {
        Ok(()) => Ok(None),
        Err(Fail::Memory) => Err(AllocError),
        Err(Fail::Refused(refusal)) => {
            let name = Name {
                bytes: refusal.name.to_vec(alloc)?,
            };
            Ok(Some(CheckError {
                kind: refusal.kind,
                line: refusal.line,
                name,
            }))
        }
    }
}

/// Checks a program against the rules of ownership.
///
/// It is accepted exactly where it keeps the rules, and else refused with the first refusal of a walk
/// from its first function to its last. It is to be the tree of a text, as a parser gives it, so that what
/// the limits of a text say holds of an accepted program. Its time is at most in proportion to the size of the program,
/// times how many names a function may declare and how many constructs may be open: each name is looked for among the
/// visible ones, and each `par` walks its branches once.
///
/// # Errors
///
/// `Refused` gives the program back with its first refusal, `OutOfMemory` gives it back where there is
/// not enough memory to check it.
pub fn check(alloc: Global, program: Program) -> Result<Checked, CheckFail>
    requires { IsTreeOfText (program_tree program) }
    ensures { Checks program result }
{
    match first_refusal(alloc, &program) {
        Ok(None) => Ok(Checked { program }),
        Ok(Some(error)) => Err(CheckFail::Refused(program, error)),
        Err(_) => Err(CheckFail::OutOfMemory(program)),
    }
}
