//! How the top thread of an owner comes to its next action.

ghost use Rattle.std.specs.Prelude.{◌≡◌, ◌+◌, ◌<◌, ◌≤◌, ℕ, Some, IfOk, OnOk, IsSome};
ghost use Rattle.std.specs.Option.{option_map};
ghost use Rattle.containers.specs.BoundedList.{entries, spare};
ghost use Rattle.hall_parts.specs.HallNames.{key_of, slot_count, IsSeatOf, running_shown, HasAllPlaces, MeetsLaw, LaneSlot as AnyLane};
ghost use Rattle.hall_parts.specs.HallNames.{Running as AnyRunning};
ghost use Rattle.hall_actions.specs.Advancing.{HasCome, IsNotBusy, IsReadable, IsRunBy, MayCome, RunsOn};
ghost use Rattle.hall_actions.specs.Rooms.{HasRoomToRun};

use crate::at_next::{AtNext, put_together, take_apart};
use crate::memory::SeatMemory;
use crate::refused::ActRefused;
use crate::rooms::reserve_lane;
use depth_first_list::Quota;
use deque_list::DequeId;
use hall_parts::give_short_back;
use hall_slots::{HallPlace, HallRow, LaneSlot, take_lane};
use play_rules::Stop;
use std::alloc::{AllocError, Global};
use thread_actions::advance;
use thread_frames::{Code, Next};

/// Asks for the memory that the next event needs in the lane and in the seat.
fn make_room(lane: &mut LaneSlot, memory: &mut SeatMemory, alloc: Global) -> Result<(), AllocError>
    requires { (was : AnyRunning) × (lane.old.running ≡ Some was) }
    ensures items { lane.new.lane.items ≡ lane.old.lane.items }
    ensures shown { option_map running_shown lane.new.running ≡ option_map running_shown lane.old.running }
    ensures births { entries memory.new.births ≡ entries memory.old.births }
    ensures threads { OnOk result (1 ≤ lane.new.lane.spare) }
    ensures room { OnOk result (HasRoomToRun (spare memory.new.births) lane.new.running) }
    ensures place { OnOk result (IsSome memory.new.place) }
{
    reserve_lane(lane)?;
    memory.reserve(alloc)
}

/// Lets the top thread of a lane that the seat holds run up to its next action. If there is not enough memory, the lane goes back.
fn run_on(
    row: &HallRow,
    seat: &mut HallPlace,
    deque: DequeId,
    lane: LaneSlot,
    code: &Code,
    quota: Quota,
    alloc: Global,
) -> Result<(AtNext, Next), ActRefused>
    requires here { IsSeatOf row.now seat.old }
    requires slot { deque.0 + 2 < slot_count row.now }
    requires terms { IsRunBy (key_of row.now) code.now quota }
    requires readable { (was : AnyLane) × IsReadable (key_of row.now) seat.old deque was lane }
    requires threads { 1 ≤ lane.lane.spare }
    ensures { (was : AnyLane) (ready : ℕ) → IsReadable (key_of row.now) seat.old deque was lane → HasRoomToRun ready lane.running
        → RunsOn (key_of row.now) seat.old was ready result seat.new }
{
    let mut at = take_apart(lane);
    match advance(&mut at.top, alloc, code, quota) {
        Ok(next) => Ok((at, next)),
        Err(_) => {
            give_short_back(row, seat, deque, put_together(at));
            Err(ActRefused::Stopped(Stop::OutOfMemory))
        }
    }
}

/// Takes the lane of the seat's deque, and lets its top thread run up to its next action.
///
/// # Errors
///
/// Another seat holds the lane (never, if this one has all places), or there is not enough memory, which the seat notes as the stop that it
/// found. The seat holds nothing.
pub fn come_to_next(
    row: &HallRow,
    seat: &mut HallPlace,
    deque: DequeId,
    code: &Code,
    quota: Quota,
    alloc: Global,
    memory: &mut SeatMemory,
) -> Result<(AtNext, Next), ActRefused>
    requires here { IsSeatOf row.now seat.old }
    requires slot { deque.0 + 2 < slot_count row.now }
    requires terms { IsRunBy (key_of row.now) code.now quota }
    requires may { MayCome seat.old deque }
    ensures seat { HasCome (key_of row.now) seat.old deque memory.new result seat.new }
    ensures meets { IfOk result (λ _. MeetsLaw (key_of row.now) seat.new) }
    ensures births { entries memory.new.births ≡ entries memory.old.births }
    ensures place { OnOk result (IsSome memory.new.place) }
    ensures lone { HasAllPlaces (key_of row.now) seat.old → IsNotBusy result }
{
    let mut lane = match take_lane(row, seat, deque) {
        Ok(lane) => lane,
        Err(held) => return Err(ActRefused::Busy(held)),
    };
    match make_room(&mut lane, memory, alloc) {
        Ok(()) => run_on(row, seat, deque, lane, code, quota, alloc),
        Err(_) => {
            give_short_back(row, seat, deque, lane);
            Err(ActRefused::Stopped(Stop::OutOfMemory))
        }
    }
}
