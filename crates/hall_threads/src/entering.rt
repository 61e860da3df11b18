//! How the workers of a run enter.

ghost use Rattle.std.specs.Prelude.{◌≡◌, ◌≤◌, None, IfOk, OnOk};
ghost use Rattle.hall_threads.specs.Crews.{EntersBy, IsCrew, IsFreshIn, LosesNone};

use crate::worker::HallWorker;
use play_rules::RunEnd;
use scheduler_state::Choices;
use std::alloc::AllocError;
use std::sync::Wait;
use work_loop::Member;
use worker_entry::{EnterRefused, Hall, Seat};

/// A member of a crew that has done nothing.
pub(crate) fn member_of<C>(seat: Seat, choices: C) -> Member<HallWorker<C>, RunEnd>
    ensures { result.worker.seat ≡ seat }
{
    Member {
        worker: HallWorker { seat, choices },
        end: None,
    }
}

/// Lets a worker enter by a seat that has two places, once no other seat holds the list. None enters where the run has ended.
fn enter_by<R: Wait>(rt: &R, hall: &Hall, by: &mut Seat) -> Result<Option<Seat>, AllocError>
    requires fresh { IsFreshIn hall.now by.old }
    requires many { 2 ≤ by.old.places }
    ensures fresh { OnOk result (IsFreshIn hall.now by.new) }
    ensures entered { IfOk result (EntersBy hall.now by.old by.new) }
{
    'tries: for _ in rt.forever() {
        match hall.enter(by) {
            Ok(seat) => return Ok(Some(seat)),
            Err(EnterRefused::Busy(_)) => (),
            Err(EnterRefused::Over(_)) => return Ok(None),
            Err(EnterRefused::OutOfMemory) => return Err(AllocError),
            Err(EnterRefused::Crowded { .. }) => unreachable!(),
        }
    }
    unreachable!()
}

/// Lets a worker enter with these choices, if the first seat has two places and the run has not ended.
fn enter_one<R: Wait, C: Choices + Drop>(
    rt: &R,
    hall: &Hall,
    first: &mut Seat,
    choices: C,
    crew: &mut Vec<Member<HallWorker<C>, RunEnd>>,
) -> Result<(), AllocError>
    requires { IsCrew hall.now first.old crew.old.items }
    ensures crew { OnOk result (IsCrew hall.now first.new crew.new.items) }
    ensures none_lost { OnOk result (LosesNone first.old first.new crew.old.items crew.new.items) }
{
    if first.places() < 2 {
        return Ok(());
    }
    match enter_by(rt, hall, first)? {
        Some(seat) => {
            crew.push(member_of(seat, choices))?;
            Ok(())
        }
        None => Ok(()),
    }
}

/// Lets a worker enter for each of these choices, as long as the first seat has a place to give and the run has not ended.
pub(crate) fn enter_all<R: Wait, C: Choices + Drop>(
    rt: &R,
    hall: &Hall,
    first: &mut Seat,
    choices: Vec<C>,
    crew: &mut Vec<Member<HallWorker<C>, RunEnd>>,
) -> Result<(), AllocError>
    requires { IsCrew hall.now first.old crew.old.items }
    ensures { OnOk result (IsCrew hall.now first.new crew.new.items) }
{
    for its in choices {
        enter_one(rt, hall, first, its, crew)?;
    }
    Ok(())
}
