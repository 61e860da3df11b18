ghost use Rattle.std.specs.Prelude.{IfOk};
ghost use Rattle.dfd_plays.specs.Answer.{CheckMakes};
ghost use Rattle.dfd_plays.specs.Sources.{SourceGives};

use crate::answer::Answer;
use crate::refusal::refusal_answer;
use crate::status::Status;
use accepted_source::accept;
use std::alloc::{AllocError, Global};

/// The canonical text of the program whose text these bytes are, or why and where they are refused.
pub fn check(alloc: Global, bytes: &[u8]) -> Result<Answer, AllocError>
    ensures { IfOk result (λ answer. SourceGives CheckMakes bytes.now answer.status answer.text.items) }
{
    match accept(alloc, bytes) {
        Ok(checked) => {
            let text = par_print::print(alloc, checked.program())?;
            Ok(Answer {
                status: Status::Done,
                text,
            })
        }
        Err(fail) => refusal_answer(alloc, fail),
    }
}
