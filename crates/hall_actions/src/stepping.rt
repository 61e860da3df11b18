//! How the top thread of an owner goes on without an event, so that its lane is free in between.

ghost use Rattle.std.specs.Prelude.{◌+◌, ◌<◌};
ghost use Rattle.hall_parts.specs.HallNames.{key_of, slot_count, IsSeatOf, HasAllPlaces};
ghost use Rattle.hall_actions.specs.Advancing.{IsNotBusy, IsRunBy, MayCome};
ghost use Rattle.hall_actions.specs.Stepping.{GoesSteps};

use crate::at_next::{put_together, take_apart};
use crate::refused::ActRefused;
use depth_first_list::Quota;
use deque_list::DequeId;
use hall_parts::{give_short_back, give_still_back};
use hall_slots::{HallPlace, HallRow, take_lane};
use play_rules::Stop;
use std::alloc::Global;
use thread_frames::Code;

/// Takes the lane of the seat's deque, lets its top thread go on towards its next action for some `most` turns, and gives the lane back. It says
/// whether the thread in the lane that goes back is before its action, which is not done. The seat holds nothing, and notes what it noted.
///
/// # Errors
///
/// Another seat holds the lane (never, if this one has all places), or there is not enough memory, which the seat notes as the stop that it
/// found.
pub fn step_on(
    row: &HallRow,
    seat: &mut HallPlace,
    deque: DequeId,
    code: &Code,
    quota: Quota,
    alloc: Global,
    most: u32,
) -> Result<bool, ActRefused>
    requires here { IsSeatOf row.now seat.old }
    requires slot { deque.0 + 2 < slot_count row.now }
    requires terms { IsRunBy (key_of row.now) code.now quota }
    requires may { MayCome seat.old deque }
    ensures seat { GoesSteps (key_of row.now) seat.old deque result seat.new }
    ensures lone { HasAllPlaces (key_of row.now) seat.old → IsNotBusy result }
{
    let lane = match take_lane(row, seat, deque) {
        Ok(lane) => lane,
        Err(held) => return Err(ActRefused::Busy(held)),
    };
    let mut at = take_apart(lane);
    match thread_actions::step_on(&mut at.top, alloc, code, quota, most) {
        Ok(came) => {
            give_still_back(row, seat, deque, put_together(at));
            Ok(came)
        }
        Err(_) => {
            give_short_back(row, seat, deque, put_together(at));
            Err(ActRefused::Stopped(Stop::OutOfMemory))
        }
    }
}
