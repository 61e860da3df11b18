ghost use Rattle.std.specs.Prelude.{◌≡◌};
ghost use Rattle.containers.specs.BoundedList.{entries};
ghost use Rattle.deque_machine.specs.Machine.{Setting};
ghost use Rattle.deque_machine.specs.Play.{Limits};
ghost use Rattle.depth_first_run.specs.States as program;
ghost use Rattle.trail_meaning.specs.Shown.{shown_by_trail};
ghost use Rattle.trail_meaning.specs.Ranges.{HasTrailRanges};
ghost use Rattle.trail_check.specs.Checking.{trail_terms, trail_machine};
ghost use Rattle.trail_check.specs.Judging.{IsListOf, HasFollowed, GivesVerdict};

use crate::checker::Checker;
use crate::following::{begin, follow_all};
use crate::verify_fail::VerifyFail;
use serial_journal::Actions;
use std::alloc::Global;
use trail_meaning::Trail;

/// Returns the verdict on a trail whose events were all followed.
fn conclude(checker: &Checker, trail: &Trail) -> Result<u32, VerifyFail>
    ensures { (s : Setting) (limits : Limits) → HasFollowed s limits (entries trail.now.events) checker.now
        → GivesVerdict s limits (entries trail.now.events) trail.now.numbers result }
{
    if !checker.has_ended() {
        return Err(VerifyFail::NotEnded {
            events: trail.events.len(),
        });
    }
    let numbers = checker.numbers();
    if numbers != trail.numbers {
        return Err(VerifyFail::WrongNumbers { numbers });
    }
    Ok(checker.actions_done())
}

/// Returns the verdict on a trail, over the depth-first list of the program.
pub(crate) fn judge(alloc: Global, actions: Actions, trail: &Trail) -> Result<u32, VerifyFail>
    requires ranges { HasTrailRanges (shown_by_trail trail.now) }
    requires listed { (c : program.Setting) × IsListOf c trail.now.k (entries actions) }
    ensures { (c : program.Setting) → IsListOf c trail.now.k (entries actions)
        → GivesVerdict (trail_machine c (shown_by_trail trail.now)) (trail_terms (shown_by_trail trail.now)).limits (entries trail.now.events)
        trail.now.numbers result }
{
    let mut checker = begin(alloc, actions, trail)?;
    follow_all(&mut checker, &trail.events)?;
    conclude(&checker, trail)
}
