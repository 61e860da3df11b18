//! The commands on a source whose parallel loops are written out.

ghost use Rattle.std.specs.Prelude.{IfOk};
ghost use Rattle.dfd_plays.specs.Answer.{HasRanges};
ghost use Rattle.dfd_plays.specs.Sources.{SourceGives};
ghost use Rattle.dfd_plays.specs.Expanding.{ExpandMakes, ExpansionGives};
ghost use Rattle.dfd_plays.specs.Play.{PlayMakes};

use crate::answer::Answer;
use crate::playing::play;
use crate::refusal::unexpanded_answer;
use crate::status::Status;
use command_line::Command;
use std::alloc::{AllocError, Global};

/// The expansion of these bytes, or why and where they have none. No program is read.
pub fn expand(alloc: Global, bytes: &[u8]) -> Result<Answer, AllocError>
    ensures { IfOk result (λ answer. ExpansionGives ExpandMakes bytes.now answer.status answer.text.items) }
{
    match loop_expand::expand(alloc, bytes) {
        Ok(text) => Ok(Answer {
            status: Status::Done,
            text,
        }),
        Err(fail) => unexpanded_answer(alloc, fail),
    }
}

/// What workers make of the program whose text is the expansion of these bytes, or why and where they are refused. Places and lines are
/// those in the expansion, but for bytes that have none.
pub fn loops(alloc: Global, command: &Command, bytes: &[u8]) -> Result<Answer, AllocError>
    requires { HasRanges command.now }
    ensures { IfOk result (λ answer. ExpansionGives (SourceGives (PlayMakes command.now)) bytes.now answer.status answer.text.items) }
{
    match loop_expand::expand(alloc, bytes) {
        Ok(expanded) => play(alloc, command, &expanded),
        Err(fail) => unexpanded_answer(alloc, fail),
    }
}
