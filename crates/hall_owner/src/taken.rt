//! What an owner took beside its lane, for the event that it is to do.

ghost use Rattle.std.specs.Prelude.{◌≤◌, ◌+◌, ◌<◌, ℕ, [], MatchResult, OnOk};
ghost use Rattle.space_ledger.specs.MovesList.{moves_spare};
ghost use Rattle.hall_actions.specs.Passed.HallNames.{Next as AnyNext, key_of, slot_count, IsSeatOf};
ghost use Rattle.hall_actions.specs.Passed.Puts.{note_of, HasPut};
ghost use Rattle.hall_actions.specs.Returning.{MayNote};
ghost use Rattle.hall_actions.specs.Passed.Rooms.{IsSamePool};
ghost use Rattle.hall_actions.specs.Passed.Writes.{Parts};
ghost use Rattle.hall_actions.specs.WithAll.{HasMoreWith, HasRoomWith};
ghost use Rattle.hall_owner.specs.Holding.{IsHolding};
ghost use Rattle.hall_owner.specs.Taken.{slots_of, HasMoreOf, HasRoomOf, IsActionOf, IsQuietOnLane};
ghost use Rattle.hall_owner.specs.declared.taken.Taken.{Taken as AnyTaken};
ghost use Rattle.hall_actions.specs.Passed.NotingVariants.{Found};
ghost use Rattle.play_rules.specs.declared.stop.Stop.TheVariants.{OutOfMemory as NoMemory};

use containers::Boxed;
use dag_order::ThreadId;
use deque_list::DequeId;
use hall_actions::{
    AtNext, ListEvent, Noting, WholeEvent, give_still_back, make_room_for, make_room_for_move,
    make_room_with, put_all, put_list_and_lane, put_pool_and_lane, put_together,
};
use hall_slots::{HallPlace, HallRow, ListSlot, PoolSlot};
use std::alloc::AllocError;
use thread_frames::Next;

/// What an owner holds beside its lane, and the event that it is to do with it.
#[derive(Drop)]
pub(crate) enum Taken {
    /// Nothing, for the Join of a child whose result was handed over and releases no words.
    OnLane {
        child: ThreadId,
    },
    /// The pool, for an action that uses `charge` words of the quota if it is an Alloc or a Fork.
    WithPool {
        pool: PoolSlot,
        next: Next,
        charge: u32,
    },
    /// The list.
    WithList {
        list: Boxed<ListSlot>,
        event: ListEvent,
    },
    /// The list and the pool.
    WithAll {
        list: Boxed<ListSlot>,
        pool: PoolSlot,
        event: WholeEvent,
    },
}

/// Whether the event is an action, which is counted.
pub(crate) fn is_counted(taken: &Taken) -> bool
    ensures { IsActionOf taken.now result }
{
    match taken {
        Taken::WithList { event, .. } => event.is_action(),
        _ => true,
    }
}

/// Asks for memory in the list for an event, and in the pool for a move.
fn make_room_in_both(
    list: &mut Boxed<ListSlot>,
    pool: &mut PoolSlot,
    event: WholeEvent,
) -> Result<(), AllocError>
    ensures list { HasMoreWith event list.old list.new }
    ensures pool { IsSamePool pool.old pool.new }
    ensures room { OnOk result (HasRoomWith event list.new × 1 ≤ moves_spare pool.new.moves) }
{
    make_room_with(list.get_mut(), event)?;
    make_room_for_move(pool)
}

/// Asks for the memory that the event needs in what was taken. Fails if there is not enough memory.
pub(crate) fn make_room(taken: &mut Taken) -> Result<(), AllocError>
    ensures same { HasMoreOf taken.old taken.new }
    ensures room { MatchResult result (λ _. HasRoomOf taken.new) (λ _. IsQuietOnLane taken.new (Found NoMemory)) }
{
    match taken {
        Taken::OnLane { .. } => Ok(()),
        Taken::WithPool { pool, .. } => make_room_for_move(pool),
        Taken::WithList { list, event } => make_room_for(list.get_mut(), *event),
        Taken::WithAll { list, pool, event } => make_room_in_both(list, pool, *event),
    }
}

/// Puts back what was taken, and the lane, if no event comes. What they show is what they showed.
pub(crate) fn give_back(
    row: &HallRow,
    seat: &mut HallPlace,
    deque: DequeId,
    at: AtNext,
    taken: Taken,
    noting: Noting,
)
    requires here { IsSeatOf row.now seat.old }
    requires slot { deque.0 + 2 < slot_count row.now }
    requires holding { (next : AnyNext) × (ready : ℕ) × (was : AnyTaken) × HasMoreOf was taken
        × IsHolding (key_of row.now) seat.old deque (slots_of deque was) at next ready }
    requires note { (was : Parts) → MayNote (key_of row.now) seat.old deque was noting }
    requires quiet { IsQuietOnLane taken noting }
    ensures { HasPut seat.old (note_of seat.old.hand.note noting) [] seat.new }
{
    let lane = put_together(at);
    match taken {
        Taken::OnLane { .. } => give_still_back(row, seat, deque, lane),
        Taken::WithPool { pool, .. } => put_pool_and_lane(row, seat, deque, pool, lane, noting),
        Taken::WithList { list, .. } => put_list_and_lane(row, seat, deque, list, lane, noting),
        Taken::WithAll { list, pool, .. } => put_all(row, seat, deque, list, pool, lane, noting),
    }
}
