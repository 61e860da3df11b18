//! How the workers of a run leave.

ghost use Rattle.std.specs.Prelude.{◌≡◌, ◌≢◌, ◌+◌, ◌≤◌, [], Some, IfOk, MatchBool, OnErr, OnOk};
ghost use Rattle.dag_order.specs.declared.finish.Finish.{Finish as AnyFinish};
ghost use Rattle.hall_threads.specs.Crews.{AreLeft, HasItsEnd, HasTaken, IsToLeave, RanShort, seat_of};
ghost use Rattle.worker_entry.specs.Seated.{IsIn};
ghost use Rattle.play_rules.specs.declared.ends.RunEnd.TheVariants.{Finished as AFinish};

use crate::worker::HallWorker;
use play_rules::RunEnd;
use std::alloc::AllocError;
use std::sync::Wait;
use work_loop::Member;
use worker_entry::{Hall, LeaveRefused, Seat};

/// Lets a seat leave into another, once no third one holds a slot that this needs.
///
/// # Errors
///
/// There is not enough memory to give its deque up. A slot that is held is no error.
fn leave_into<R: Wait>(rt: &R, hall: &Hall, seat: Seat, into: &mut Seat) -> Result<(), AllocError>
    requires here { IsIn hall.now seat }
    requires into { IsIn hall.now into.old }
    requires few { into.old.places + seat.places ≤ hall.now.workers }
    ensures taken { OnOk result (HasTaken hall.now seat into.old into.new) }
    ensures short { OnErr result (RanShort hall.now) }
{
    let mut leaving = seat;
    'tries: for _ in rt.forever() {
        match hall.leave(leaving, into) {
            Ok(()) => return Ok(()),
            Err((back, LeaveRefused::Busy(_))) => leaving = back,
            Err((_, LeaveRefused::OutOfMemory)) => return Err(AllocError),
        }
    }
    unreachable!()
}

/// Whether a member was told that the run has finished.
fn has_finished<C>(member: &Member<HallWorker<C>, RunEnd>) -> bool
    ensures { MatchBool result ((finish : AnyFinish) × (member.now.end ≡ Some (AFinish finish))) ((finish : AnyFinish) → member.now.end ≢ Some (AFinish finish)) }
{
    matches!(member.end, Some(RunEnd::Finished(_)))
}

/// Lets one of two members leave into the other, which comes back. A member that was told of a stop stays: it may have given a deque up, and only
/// where no member was told of one is this not asked.
fn leave_one<R: Wait, C: Drop>(
    rt: &R,
    hall: &Hall,
    stays: Member<HallWorker<C>, RunEnd>,
    member: Member<HallWorker<C>, RunEnd>,
) -> Result<Member<HallWorker<C>, RunEnd>, AllocError>
    requires stays { HasItsEnd hall.now stays }
    requires leaves { IsToLeave hall.now member }
    requires few { (seat_of stays).places + 1 ≤ hall.now.workers }
    ensures end { IfOk result (HasItsEnd hall.now) }
    ensures places { IfOk result (λ left. (seat_of left).places ≡ (seat_of stays).places + 1) }
    ensures short { OnErr result (RanShort hall.now) }
{
    let (goes, mut stays) = if has_finished(&stays) {
        (stays, member)
    } else {
        (member, stays)
    };
    let Member { worker, .. } = goes;
    let HallWorker { seat, .. } = worker;
    leave_into(rt, hall, seat, &mut stays.worker.seat)?;
    Ok(stays)
}

/// Lets all members of a crew leave but one, which comes back with the places of all workers.
pub(crate) fn leave_all<R: Wait, C: Drop>(
    rt: &R,
    hall: &Hall,
    last: Member<HallWorker<C>, RunEnd>,
    crew: Vec<Member<HallWorker<C>, RunEnd>>,
) -> Result<Member<HallWorker<C>, RunEnd>, AllocError>
    requires { AreLeft hall.now last crew.items }
    ensures left { IfOk result (λ left. AreLeft hall.now left []) }
    ensures short { OnErr result (RanShort hall.now) }
{
    let mut stays = last;
    for member in crew {
        stays = leave_one(rt, hall, stays, member)?;
    }
    Ok(stays)
}
