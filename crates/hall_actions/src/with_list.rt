//! The events for which an owner holds the list beside its lane, and no pool.

ghost use Rattle.std.specs.Prelude.{◌≡◌, ◌+◌, ◌<◌, [], None, Some, OnOk};
ghost use Rattle.containers.specs.BoundedList.{entries, spare};
ghost use Rattle.hall_parts.specs.Passed.RunEndVariants.{Finished};
ghost use Rattle.thread_frames.specs.Roots.{end_of_root};
ghost use Rattle.hall_parts.specs.HallNames.{key_of, slot_count, IsSeatOf, table_of, quota_of, HallSeat, HallKey, IsAtPoint};
ghost use Rattle.hall_parts.specs.Here.{MayDo};
ghost use Rattle.hall_parts.specs.Puts.{HasPut, MayPutListAndLane};
ghost use Rattle.hall_parts.specs.Writes.{told_note};
ghost use Rattle.hall_actions.specs.WithList.{is_action, HasMoreFor, HasRoomFor, IsNamedAs, IsNotedFor, IsReadyForList, IsWithList};

use crate::at_next::AtNext;
use crate::memory::SeatMemory;
use crate::results::{hand_over, id_of};
use crate::rooms::{make_room_to_close, make_room_to_leave, make_room_to_wait};
use containers::Boxed;
use dag_order::{Finish, ThreadId};
use deque_list::{DequeId, Lane};
use hall_parts::{Noting, do_dummy, do_join, end_root, leave_result, put_list_and_lane, suspend};
use hall_slots::{Event, HallPlace, HallRow, LaneSlot, ListSlot};
use play_rules::RunEnd;
use std::alloc::AllocError;
use thread_frames::{Ended, Thread};

/// An event for which an owner needs the list and no pool.
#[derive(Clone, Copy, PartialEq, Eq, Debug)]
pub enum ListEvent {
    /// The deque is given up, since the next action takes more of the quota than is left.
    GiveUp,
    /// The top thread, which is alone in its deque, waits for a child: the deque is gone.
    Wait { child: ThreadId },
    /// A Dummy, with which the deque is given up.
    Dummy,
    /// The Join of a child whose result is in the list and releases no words.
    Join { child: ThreadId },
    /// The End of the root, which is alone in its deque, with which the run has finished: the deque is gone.
    RootEnd,
}

impl ListEvent {
    /// Whether it is an action, which is counted.
    pub fn is_action(self) -> bool
        ensures { result ≡ is_action self }
    {
        match self {
            ListEvent::GiveUp => false,
            ListEvent::Wait { child: _child } => false,
            ListEvent::Dummy => true,
            ListEvent::Join { child: _child } => true,
            ListEvent::RootEnd => true,
        }
    }
}

/// Asks for the memory that an event needs in the list.
///
/// # Errors
///
/// There is not enough memory.
pub fn make_room_for(list: &mut ListSlot, event: ListEvent) -> Result<(), AllocError>
    ensures same { HasMoreFor event list.old list.new }
    ensures room { OnOk result (HasRoomFor event list.new) }
{
    match event {
        ListEvent::GiveUp => make_room_to_close(list),
        ListEvent::Wait { child: _child } => make_room_to_wait(list),
        ListEvent::Dummy => make_room_to_close(list),
        ListEvent::Join { child: _child } => Ok(()),
        ListEvent::RootEnd => make_room_to_leave(list),
    }
}

/// Returns how a run finishes with this result of its root.
fn finish_of(ended: &Ended) -> Finish
    ensures { end_of_root (Some ended.now) ≡ Some (Finished result) }
{
    match ended.fault() {
        None => Finish::Done,
        Some(at) => Finish::Faulted(at),
    }
}

/// An event after which the lane has no period, and the seat no deque.
fn left(lane: Lane<Boxed<Thread>>, event: Event) -> (LaneSlot, Event, Option<DequeId>)
    ensures { result ≡ (record { lane = lane; running = None }, event, None) }
{
    let running = None;
    (LaneSlot { lane, running }, event, None)
}

/// Does an event. Returns the lane as it goes back, what the seat notes, and the deque that it owns then.
fn do_with_list(
    deque: DequeId,
    at: AtNext,
    list: &mut ListSlot,
    memory: &mut SeatMemory,
    event: ListEvent,
) -> (LaneSlot, Event, Option<DequeId>)
    requires may { MayDo 1 0 at.top at.lane at.running.period memory.old.births }
    requires can { (key : HallKey) × IsAtPoint (table_of key) (quota_of key) at.top × IsWithList key deque list.old at event }
    ensures writes { (key : HallKey) (seat : HallSeat) → IsReadyForList key seat deque list.old at (spare memory.old.births) event
        → MayPutListAndLane key seat deque list.new result.0 (told_note seat.hand.note result.2 result.1) }
    ensures notes { IsNotedFor event deque at.top result.1 result.2 }
    ensures named { IsNamedAs at.top result.1 }
    ensures none { entries memory.new.births ≡ [] }
{
    let AtNext { lane, running, top } = at;
    let mut lane = lane;
    let mut running = running;
    let mut top = top;
    match event {
        ListEvent::GiveUp => {
            lane.push_top(top);
            list.give_up(deque, running);
            left(lane, Event::GaveUp(deque))
        }
        ListEvent::Wait { child } => {
            let thread = id_of(&top);
            suspend(list, deque, running, top, child);
            left(lane, Event::Suspended(thread))
        }
        ListEvent::Dummy => {
            let name = do_dummy(&mut lane, &mut running.period, &mut memory.births, top);
            list.give_up(deque, running);
            left(lane, Event::Did(name))
        }
        ListEvent::Join { child } => {
            hand_over(list, &mut top, child);
            let name = do_join(&mut lane, &mut running.period, &mut memory.births, top);
            let running = Some(running);
            (LaneSlot { lane, running }, Event::Did(name), Some(deque))
        }
        ListEvent::RootEnd => {
            let id = id_of(&top);
            let (name, ended) = end_root(&mut running.period, &mut memory.births, &mut top);
            let finish = finish_of(&ended);
            leave_result(list, deque, running, id, ended);
            list.end = Some(RunEnd::Finished(finish));
            memory.used = Some(top);
            left(lane, Event::Did(name))
        }
    }
}

/// Does an event with the list that the seat holds beside its lane, and puts both back. Returns what the seat notes, and the deque that it owns
/// then.
pub fn act_with_list(
    row: &HallRow,
    seat: &mut HallPlace,
    deque: DequeId,
    at: AtNext,
    list: Boxed<ListSlot>,
    memory: &mut SeatMemory,
    event: ListEvent,
) -> (Event, Option<DequeId>)
    requires here { IsSeatOf row.now seat.old }
    requires slot { deque.0 + 2 < slot_count row.now }
    requires ready { IsReadyForList (key_of row.now) seat.old deque list at (spare memory.old.births) event }
    requires none { entries memory.old.births ≡ [] }
    ensures seat { HasPut seat.old (told_note seat.old.hand.note result.1 result.0) [] seat.new }
    ensures notes { IsNotedFor event deque at.top result.0 result.1 }
    ensures named { IsNamedAs at.top result.0 }
    ensures none { entries memory.new.births ≡ [] }
{
    let mut list = list;
    let (lane, noted, owns) = do_with_list(deque, at, list.get_mut(), memory, event);
    let noting = Noting::Does { event: noted, owns };
    put_list_and_lane(row, seat, deque, list, lane, noting);
    (noted, owns)
}
