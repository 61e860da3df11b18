ghost use Rattle.std.specs.Prelude.{◌≡◌, Err, IfOk, ℕ, List};
ghost use Rattle.accepted_source.specs.Sources.{ReadsSource};
ghost use Rattle.dfd_plays.specs.Sources.{RefusalGives};
ghost use Rattle.dfd_plays.specs.Expanding.{TellsExpandFail};
ghost use Rattle.dfd_plays.specs.declared.status.Status.TheVariants.{Syntax};

use crate::answer::Answer;
use crate::messages::{bad_loop_text, check_text, name_taken_text, syntax_text};
use crate::status::Status;
use accepted_source::SourceFail;
use loop_expand::ExpandFail;
use std::alloc::{AllocError, Global};

/// The answer to a source that is refused: the line of its refusal.
pub fn refusal_answer(alloc: Global, fail: SourceFail) -> Result<Answer, AllocError>
    ensures { IfOk result (λ answer. (bytes : List ℕ) → ReadsSource bytes (Err fail) → RefusalGives bytes answer.status answer.text.items) }
{
    match fail {
        SourceFail::Syntax(refusal) => {
            let text = syntax_text(alloc, refusal)?;
            Ok(Answer {
                status: Status::Syntax,
                text,
            })
        }
        SourceFail::Check(refusal) => {
            let text = check_text(alloc, &refusal)?;
            Ok(Answer {
                status: Status::Check,
                text,
            })
        }
        SourceFail::OutOfMemory => Err(AllocError),
    }
}

/// The answer to a source that has no expansion: the line that says why and where.
pub fn unexpanded_answer(alloc: Global, fail: ExpandFail) -> Result<Answer, AllocError>
    ensures status { IfOk result (λ answer. answer.status ≡ Syntax) }
    ensures line { IfOk result (λ answer. TellsExpandFail fail answer.text.items) }
{
    let text = match fail {
        ExpandFail::Refused(refusal) => syntax_text(alloc, refusal)?,
        ExpandFail::BadLoop { at } => bad_loop_text(alloc, at)?,
        ExpandFail::NameTaken { at } => name_taken_text(alloc, at)?,
        ExpandFail::OutOfMemory => return Err(AllocError),
    };
    Ok(Answer {
        status: Status::Syntax,
        text,
    })
}
