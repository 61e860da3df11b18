ghost use Rattle.std.specs.Prelude.{◌+◌, ◌<◌, [], length, take, Err, IfOk, MatchResult};
ghost use Rattle.containers.specs.BoundedList.{entries};
ghost use Rattle.deque_machine.specs.Machine.{Setting};
ghost use Rattle.deque_machine.specs.Play.{Limits};
ghost use Rattle.depth_first_run.specs.States as program;
ghost use Rattle.trail_meaning.specs.Shown.{shown_by_trail};
ghost use Rattle.trail_meaning.specs.Ranges.{HasTrailRanges};
ghost use Rattle.trail_meaning.specs.declared.trail_numbers.TrailNumbers.{TrailNumbers as Numbers};
ghost use Rattle.trail_check.specs.Checking.{trail_terms, trail_machine};
ghost use Rattle.trail_check.specs.Judging.{IsListOf, HasFollowed, GivesVerdict};

use crate::checker::Checker;
use crate::places::partners;
use crate::terms::Terms;
use crate::verify_fail::VerifyFail;
use serial_journal::Actions;
use std::alloc::{AllocError, Global};
use trail_meaning::{Events, Trail};

/// A checker before the first event of a trail, over the depth-first list of the program.
///
/// # Errors
///
/// `AllocError` if there is not enough memory.
pub(crate) fn begin(alloc: Global, actions: Actions, trail: &Trail) -> Result<Checker, AllocError>
    requires { HasTrailRanges (shown_by_trail trail.now) }
    ensures { (c : program.Setting) → IsListOf c trail.now.k (entries actions)
        → IfOk result (λ checker. HasFollowed (trail_machine c (shown_by_trail trail.now)) (trail_terms (shown_by_trail trail.now)).limits [] checker) }
{
    let partners = partners(alloc, &actions)?;
    let terms = Terms {
        quota: trail.k,
        workers: trail.p,
        arena: trail.arena,
        steps: trail.steps,
        deques: trail.deques,
    };
    Checker::new(alloc, actions, partners, terms)
}

/// Follows the event at a place.
///
/// # Errors
///
/// `BadEvent` if it leads nowhere; `OutOfMemory` if there is not enough memory.
fn follow_at(checker: &mut Checker, events: &Events, at: u32) -> Result<(), VerifyFail>
    requires inside { at < length (entries events.now) }
    requires followed { (s : Setting) × (limits : Limits) × HasFollowed s limits (take at (entries events.now)) checker.old }
    ensures { (s : Setting) (limits : Limits) (numbers : Numbers) → HasFollowed s limits (take at (entries events.now)) checker.old
        → MatchResult result (λ _. HasFollowed s limits (take (at + 1) (entries events.now)) checker.new)
        (λ fail. GivesVerdict s limits (entries events.now) numbers (Err fail)) }
{
    let Some(told) = events.at(at) else {
        unreachable!();
    };
    if !checker.follow(*told)? {
        return Err(VerifyFail::BadEvent { event: at + 1 });
    }
    Ok(())
}

/// Follows the events of a trail to the last one.
///
/// # Errors
///
/// `BadEvent` at the first event that leads nowhere; `OutOfMemory` if there is not enough memory.
pub(crate) fn follow_all(checker: &mut Checker, events: &Events) -> Result<(), VerifyFail>
    requires { (s : Setting) × (limits : Limits) × HasFollowed s limits [] checker.old }
    ensures { (s : Setting) (limits : Limits) (numbers : Numbers) → HasFollowed s limits [] checker.old
        → MatchResult result (λ _. HasFollowed s limits (entries events.now) checker.new)
        (λ fail. GivesVerdict s limits (entries events.now) numbers (Err fail)) }
{
    'events: for at in 0..events.len() {
        follow_at(checker, events, at)?;
    }
    Ok(())
}
