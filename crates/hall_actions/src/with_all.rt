//! The events for which an owner holds the list and the pool beside its lane.

ghost use Rattle.std.specs.Prelude.{◌≡◌, ◌≤◌, ◌+◌, ◌<◌, ◌∷◌, [], Some, OnOk};
ghost use Rattle.containers.specs.BoundedList.{entries, spare};
ghost use Rattle.hall_parts.specs.HallNames.{key_of, slot_count, IsSeatOf, table_of, quota_of, HallSeat, HallKey, IsAtPoint, Thread as AnyThread};
ghost use Rattle.hall_parts.specs.HallNames.{kept_under};
ghost use Rattle.hall_slots.specs.declared.event.Event.TheVariants.{Did};
ghost use Rattle.hall_parts.specs.Passed.Acts.{next_name};
ghost use Rattle.hall_parts.specs.Here.{MayDo, HasMovesFor};
ghost use Rattle.hall_parts.specs.ListCalls.{TakesWaiting, KeepsCrew};
ghost use Rattle.hall_parts.specs.Puts.{HasPut, MayPutAll};
ghost use Rattle.hall_parts.specs.Writes.{told_note};
ghost use Rattle.hall_actions.specs.WithAll.{HasMoreWith, HasRoomWith, IsReadyForAll, IsWithAll, owned_with};

use crate::at_next::AtNext;
use crate::memory::SeatMemory;
use crate::results::{hand_over, id_of};
use crate::rooms::make_room_to_leave;
use containers::Boxed;
use dag_order::{ActionId, ThreadId};
use deque_list::{DequeId, Lane};
use hall_parts::{
    Noting, do_join_giving, end_above, end_forked, leave_result, put_all, take_waiting,
};
use hall_slots::{Event, HallPlace, HallRow, LaneSlot, ListSlot, PoolSlot};
use std::alloc::AllocError;
use thread_frames::Thread;

/// An event for which an owner needs the list and the pool.
#[derive(Clone, Copy, PartialEq, Eq, Debug)]
pub enum WholeEvent {
    /// The Join of a child whose result is in the list and releases words.
    Join { child: ThreadId },
    /// The End of a forked thread that is alone in its deque and for which its parent waits: this comes into the deque, has the result, and runs next.
    Wake,
    /// The End of a forked thread that is alone in its deque and for which nobody waits: its result is kept in the list, and the deque is gone.
    Leave,
}

/// Asks for the memory that an event needs in the list.
///
/// # Errors
///
/// There is not enough memory.
pub fn make_room_with(list: &mut ListSlot, event: WholeEvent) -> Result<(), AllocError>
    ensures same { HasMoreWith event list.old list.new }
    ensures room { OnOk result (HasRoomWith event list.new) }
{
    match event {
        WholeEvent::Join { child: _child } => Ok(()),
        WholeEvent::Wake => Ok(()),
        WholeEvent::Leave => make_room_to_leave(list),
    }
}

/// Puts the thread that waits for a child on top of a lane.
fn wake_in(list: &mut ListSlot, lane: &mut Lane<Boxed<Thread>>, child: ThreadId)
    requires waits { (parent : AnyThread) × (kept_under list.old.part.waiting child ≡ Some parent) }
    requires room { 1 ≤ lane.old.spare }
    ensures woken { (parent : AnyThread) → kept_under list.old.part.waiting child ≡ Some parent
        → (lane.new.items ≡ parent ∷ lane.old.items) × TakesWaiting list.old list.new child parent }
    ensures results { list.new.part.results ≡ list.old.part.results }
    ensures rest { KeepsCrew list.old list.new }
{
    let Some(parent) = take_waiting(list, child) else {
        unreachable!();
    };
    lane.push_top(parent);
}

/// Does an event. Returns the lane as it goes back, the name of the action, and the deque that the seat owns then.
fn do_with_all(
    deque: DequeId,
    at: AtNext,
    list: &mut ListSlot,
    pool: &mut PoolSlot,
    memory: &mut SeatMemory,
    event: WholeEvent,
) -> (LaneSlot, ActionId, Option<DequeId>)
    requires may { MayDo 1 0 at.top at.lane at.running.period memory.old.births }
    requires moves { HasMovesFor pool.old.pool.live pool.old.moves }
    requires can { (key : HallKey) × IsAtPoint (table_of key) (quota_of key) at.top × IsWithAll key deque list.old pool.old at event }
    ensures writes { (key : HallKey) (seat : HallSeat) → IsReadyForAll key seat deque list.old pool.old at (spare memory.old.births) event
        → MayPutAll key seat deque list.new pool.new result.0 (told_note seat.hand.note result.2 (Did result.1)) }
    ensures owned { result.2 ≡ owned_with event deque }
    ensures name { result.1 ≡ next_name at.top }
    ensures none { entries memory.new.births ≡ [] }
{
    let AtNext { lane, running, top } = at;
    let mut lane = lane;
    let mut running = running;
    let mut top = top;
    let first = &mut memory.births;
    match event {
        WholeEvent::Join { child } => {
            hand_over(list, &mut top, child);
            let name = do_join_giving(&mut lane, &mut running.period, first, pool, top);
            let running = Some(running);
            (LaneSlot { lane, running }, name, Some(deque))
        }
        WholeEvent::Wake => {
            let id = id_of(&top);
            wake_in(list, &mut lane, id);
            let name = end_above(&mut lane, &mut running.period, first, pool, &mut top);
            memory.used = Some(top);
            let running = Some(running);
            (LaneSlot { lane, running }, name, Some(deque))
        }
        WholeEvent::Leave => {
            let id = id_of(&top);
            let (name, ended) = end_forked(&mut running.period, first, pool, &mut top);
            leave_result(list, deque, running, id, ended);
            memory.used = Some(top);
            let running = None;
            (LaneSlot { lane, running }, name, None)
        }
    }
}

/// Does an event with the list and the pool that the seat holds beside its lane, and puts them back. Returns the name of the action, and the
/// deque that the seat owns then.
pub fn act_with_all(
    row: &HallRow,
    seat: &mut HallPlace,
    deque: DequeId,
    at: AtNext,
    list: Boxed<ListSlot>,
    pool: PoolSlot,
    memory: &mut SeatMemory,
    event: WholeEvent,
) -> (ActionId, Option<DequeId>)
    requires here { IsSeatOf row.now seat.old }
    requires slot { deque.0 + 2 < slot_count row.now }
    requires ready { IsReadyForAll (key_of row.now) seat.old deque list pool at (spare memory.old.births) event }
    requires none { entries memory.old.births ≡ [] }
    ensures seat { HasPut seat.old (told_note seat.old.hand.note result.1 (Did result.0)) [] seat.new }
    ensures owned { result.1 ≡ owned_with event deque }
    ensures name { result.0 ≡ next_name at.top }
    ensures none { entries memory.new.births ≡ [] }
{
    let mut list = list;
    let mut pool = pool;
    let (lane, name, owns) = do_with_all(deque, at, list.get_mut(), &mut pool, memory, event);
    let event = Event::Did(name);
    put_all(
        row,
        seat,
        deque,
        list,
        pool,
        lane,
        Noting::Does { event, owns },
    );
    (name, owns)
}
