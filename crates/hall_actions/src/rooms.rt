//! How an owner asks for memory in the slots that it took.

ghost use Rattle.std.specs.Prelude.{◌≡◌, ◌≤◌, ℕ, Some, OnOk};
ghost use Rattle.std.specs.Option.{option_map};
ghost use Rattle.space_ledger.specs.BooksList.{books_spare};
ghost use Rattle.space_ledger.specs.MovesList.{moves_spare};
ghost use Rattle.hall_parts.specs.Rooms.{HasMoreBooks, HasMoreToWait, HasMoreToLeave, IsSamePool};
ghost use Rattle.hall_parts.specs.HallNames.{running_shown, Running as AnyRunning};
ghost use Rattle.hall_actions.specs.Rooms.{HasRoomToRun};

use hall_slots::{LaneSlot, ListSlot, PoolSlot, Running};
use open_periods::reserve_in;
use std::alloc::AllocError;

/// Makes room for an action in the period that runs in a lane, and for a birth, if it is not the first one.
fn reserve_running(running: &mut Option<Running>) -> Result<(), AllocError>
    requires { (was : AnyRunning) × (running.old ≡ Some was) }
    ensures shown { option_map running_shown running.new ≡ option_map running_shown running.old }
    ensures some { (now : AnyRunning) × (running.new ≡ Some now) }
    ensures room { (first : ℕ) → 1 ≤ first → OnOk result (HasRoomToRun first running.new) }
{
    match running {
        Some(running) => reserve_in(&mut running.period),
        None => unreachable!(),
    }
}

/// Makes room in a lane for one more thread, and for an action in the period that runs there, and for a birth, if it is not the first one. Fails if
/// there is not enough memory.
pub(crate) fn reserve_lane(lane: &mut LaneSlot) -> Result<(), AllocError>
    requires { (was : AnyRunning) × (lane.old.running ≡ Some was) }
    ensures items { lane.new.lane.items ≡ lane.old.lane.items }
    ensures shown { option_map running_shown lane.new.running ≡ option_map running_shown lane.old.running }
    ensures some { (now : AnyRunning) × (lane.new.running ≡ Some now) }
    ensures threads { OnOk result (1 ≤ lane.new.lane.spare) }
    ensures room { (first : ℕ) → 1 ≤ first → OnOk result (HasRoomToRun first lane.new.running) }
{
    lane.lane.reserve()?;
    reserve_running(&mut lane.running)
}

/// Makes room in the pool's moves for one more.
///
/// # Errors
///
/// There is not enough memory.
pub fn make_room_for_move(pool: &mut PoolSlot) -> Result<(), AllocError>
    ensures same { IsSamePool pool.old pool.new }
    ensures room { OnOk result (1 ≤ moves_spare pool.new.moves) }
{
    pool.moves.reserve()
}

/// Makes room in the list for a period that is closed.
///
/// # Errors
///
/// There is not enough memory.
pub fn make_room_to_close(list: &mut ListSlot) -> Result<(), AllocError>
    ensures same { HasMoreBooks list.old list.new }
    ensures room { OnOk result (1 ≤ books_spare list.new.part.books) }
{
    list.part.books.reserve()
}

/// Makes room in the list for a period that is closed, and a thread that waits.
///
/// # Errors
///
/// There is not enough memory.
pub fn make_room_to_wait(list: &mut ListSlot) -> Result<(), AllocError>
    ensures same { HasMoreToWait list.old list.new }
    ensures books { OnOk result (1 ≤ books_spare list.new.part.books) }
    ensures room { OnOk result (1 ≤ list.new.part.waiting.spare) }
{
    list.part.books.reserve()?;
    list.part.waiting.reserve()
}

/// Makes room in the list for a period that is closed, and a result.
///
/// # Errors
///
/// There is not enough memory.
pub fn make_room_to_leave(list: &mut ListSlot) -> Result<(), AllocError>
    ensures same { HasMoreToLeave list.old list.new }
    ensures books { OnOk result (1 ≤ books_spare list.new.part.books) }
    ensures room { OnOk result (1 ≤ list.new.part.results.spare) }
{
    list.part.books.reserve()?;
    list.part.results.reserve()
}
