ghost use Rattle.std.specs.Prelude.{IfOk};
ghost use Rattle.block_check.specs.Checked.{program_of};
ghost use Rattle.par_ownership.specs.Ownership.{Ownership};
ghost use Rattle.par_tree.specs.View.{program_tree};
ghost use Rattle.trail_meaning.specs.Ranges.{HasTrailRanges};
ghost use Rattle.trail_meaning.specs.Shown.{shown_by_trail};
ghost use Rattle.dfd_plays.specs.Sources.{SourceGives};
ghost use Rattle.dfd_plays.specs.Trails.{VerifyGives, VerifyMakes};

use crate::answer::Answer;
use crate::refusal::refusal_answer;
use crate::status::Status;
use crate::trail_messages::{
    bad_event_text, long_run_text, not_ended_text, not_trail_text, trail_ok_text,
    wrong_numbers_text,
};
use accepted_source::accept;
use block_check::Checked;
use std::alloc::{AllocError, Global};
use trail_check::VerifyFail;
use trail_meaning::Trail;
use trail_text::{TrailFail, read_trail};

/// What is told of a trail and the program of its source.
fn verify_program(alloc: Global, trail: &Trail, program: &Checked) -> Result<Answer, AllocError>
    requires ranges { HasTrailRanges (shown_by_trail trail.now) }
    requires owned { Ownership (program_tree (program_of program.now)) }
    ensures { IfOk result (λ answer. VerifyMakes (shown_by_trail trail.now) (program_tree (program_of program.now)) answer.status answer.text.items) }
{
    let (status, text) = match trail_check::verify(alloc, program, trail) {
        Ok(actions) => (Status::Done, trail_ok_text(alloc, trail.numbers, actions)?),
        Err(VerifyFail::LongRun { limit }) => (Status::TrailRefused, long_run_text(alloc, limit)?),
        Err(VerifyFail::BadEvent { event }) => {
            (Status::TrailRefused, bad_event_text(alloc, event)?)
        }
        Err(VerifyFail::NotEnded { events }) => {
            (Status::TrailRefused, not_ended_text(alloc, events)?)
        }
        Err(VerifyFail::WrongNumbers { numbers }) => {
            (Status::TrailRefused, wrong_numbers_text(alloc, numbers)?)
        }
        Err(VerifyFail::OutOfMemory) => return Err(AllocError),
    };
    Ok(Answer { status, text })
}

/// What is told of a trail, or why and where its source is refused.
fn verify_trail(alloc: Global, trail: &Trail) -> Result<Answer, AllocError>
    requires { HasTrailRanges (shown_by_trail trail.now) }
    ensures { IfOk result (λ answer. SourceGives (VerifyMakes (shown_by_trail trail.now)) trail.now.source.items answer.status answer.text.items) }
{
    match accept(alloc, &trail.source) {
        Ok(program) => verify_program(alloc, trail, &program),
        Err(fail) => refusal_answer(alloc, fail),
    }
}

/// What is told of the trail whose text these bytes are, or where they break its form.
pub fn verify(alloc: Global, bytes: &[u8]) -> Result<Answer, AllocError>
    ensures { IfOk result (λ answer. VerifyGives bytes.now answer.status answer.text.items) }
{
    match read_trail(alloc, bytes) {
        Ok(trail) => verify_trail(alloc, &trail),
        Err(TrailFail::NotTrail { at }) => Ok(Answer {
            status: Status::TrailRefused,
            text: not_trail_text(alloc, at)?,
        }),
        Err(TrailFail::OutOfMemory) => Err(AllocError),
    }
}
