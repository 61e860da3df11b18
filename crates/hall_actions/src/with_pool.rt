//! The actions for which an owner holds its lane alone, or the pool beside it.

ghost use Rattle.std.specs.Prelude.{◌≡◌, ◌+◌, ◌<◌, [], Some, IsTrue, ◌≤◌, IsSome};
ghost use Rattle.containers.specs.BoundedList.{entries, spare};
ghost use Rattle.thread_frames.specs.declared.next.Next.TheVariants as nexts;
ghost use Rattle.hall_parts.specs.HallNames.{key_of, slot_count, IsSeatOf, Each, HallKey, table_of, quota_of, pool_shown, ThreadId, IsJoin, is_there};
ghost use Rattle.hall_parts.specs.HallNames.{next_of, children_of, newest, join_words_of, IsAtPoint, PoolIsSound};
ghost use Rattle.hall_slots.specs.declared.event.Event.TheVariants.{Did};
ghost use Rattle.hall_parts.specs.Passed.Acts.{next_name};
ghost use Rattle.hall_parts.specs.Writes.{told_note};
ghost use Rattle.hall_parts.specs.Puts.{HasPut};
ghost use Rattle.hall_parts.specs.EventParts.{MayAct, IsNext};
ghost use Rattle.hall_parts.specs.Taken.{its_lane};
ghost use Rattle.hall_actions.specs.Ready.{IsReady, IsReadyWithPool, PoolIsReady};
ghost use Rattle.depth_first_list.specs.Actions.{record_words};
ghost use Rattle.hall_parts.specs.Here.{MayDo, HasMovesFor, TakesWords};
ghost use Rattle.hall_actions.specs.Lists.{words_back};
ghost use Rattle.hall_actions.specs.Quotas.{MayUse};
ghost use Rattle.hall_actions.specs.WithPool.{words_asked_by, DoesWithPool, IsWithPool};

use crate::at_next::AtNext;
use crate::memory::SeatMemory;
use containers::Boxed;
use dag_order::{ActionId, Births};
use deque_list::{DequeId, Lane};
use hall_parts::{
    Noting, do_alloc, do_fault, do_fork, do_join, do_join_giving, do_release, end_above, put_lane,
    put_pool_and_lane,
};
use hall_slots::{Event, HallPlace, HallRow, LaneSlot, PoolSlot, Running};
use open_periods::Period;
use thread_frames::{Next, Thread};

/// Does a Join that releases no words, for which the seat holds its lane alone. Returns its name.
pub fn act_own_join(
    row: &HallRow,
    seat: &mut HallPlace,
    deque: DequeId,
    lane: Lane<Boxed<Thread>>,
    running: Running,
    top: Boxed<Thread>,
    first: &mut Births,
) -> ActionId
    requires here { IsSeatOf row.now seat.old }
    requires slot { deque.0 + 2 < slot_count row.now }
    requires may { MayAct seat.old deque }
    requires ready { IsReady (key_of row.now) seat.old (its_lane deque) lane running top 1 (spare first.old) }
    requires next { IsJoin (next_of top) }
    requires delivered { IsTrue (is_there (newest (children_of top))) }
    requires words { join_words_of top ≡ 0 }
    requires listed { (child : ThreadId) × IsNext (key_of row.now) top (nexts.Join child) }
    requires none { entries first.old ≡ [] }
    ensures seat { HasPut seat.old (told_note seat.old.hand.note (Some deque) (Did result)) [] seat.new }
    ensures name { result ≡ next_name top }
    ensures none { entries first.new ≡ [] }
{
    let mut lane = lane;
    let mut running = running;
    let name = do_join(&mut lane, &mut running.period, first, top);
    let running = Some(running);
    let lane = LaneSlot { lane, running };
    let event = Event::Did(name);
    let owns = Some(deque);
    put_lane(row, seat, deque, lane, Noting::Does { event, owns });
    name
}

/// Does an action, which uses `charge` words of the quota if it is an Alloc or a Fork. Returns its name.
fn do_with_pool(
    lane: &mut Lane<Boxed<Thread>>,
    period: &mut Period,
    pool: &mut PoolSlot,
    memory: &mut SeatMemory,
    top: Boxed<Thread>,
    next: Next,
    charge: u32,
) -> ActionId
    requires may { MayDo 2 charge top lane.old period.old memory.old.births }
    requires place { IsSome memory.old.place }
    requires next { next_of top ≡ Some next }
    requires forks { next ≡ nexts.Fork → charge ≡ record_words }
    requires moves { HasMovesFor pool.old.pool.live pool.old.moves }
    requires fits { pool.old.pool.live + words_asked_by next ≤ pool.old.pool.capacity }
    requires back { words_back top next ≤ pool.old.pool.live }
    requires suits { IsWithPool next top lane.old.items }
    ensures does { DoesWithPool next charge top lane.old.items period.old lane.new.items period.new result }
    ensures name { result ≡ next_name top }
    ensures words { TakesWords next top result (pool_shown pool.old) (pool_shown pool.new) }
    ensures sound { (key : HallKey) → PoolIsSound key pool.old → PoolIsSound key pool.new }
    ensures points { (key : HallKey) → IsAtPoint (table_of key) (quota_of key) top
        → Each (IsAtPoint (table_of key) (quota_of key)) lane.old.items → Each (IsAtPoint (table_of key) (quota_of key)) lane.new.items }
    ensures none { entries memory.new.births ≡ [] }
{
    let first = &mut memory.births;
    match next {
        Next::Fork => {
            let Some(place) = memory.place.take() else {
                unreachable!();
            };
            do_fork(lane, period, first, pool, top, place)
        }
        Next::Join { child: _child } => do_join_giving(lane, period, first, pool, top),
        Next::Alloc { words: _words } => do_alloc(lane, period, first, pool, top, charge),
        Next::Release { words: _words } => do_release(lane, period, first, pool, top),
        Next::Dummy => unreachable!(),
        Next::Fault(_found) => do_fault(lane, period, first, pool, top),
        Next::End => {
            let mut top = top;
            let name = end_above(lane, period, first, pool, &mut top);
            memory.used = Some(top);
            name
        }
    }
}

/// Does an action with the pool that the seat holds beside its lane, and puts both back. Returns the name of the action.
pub fn act_with_pool(
    row: &HallRow,
    seat: &mut HallPlace,
    deque: DequeId,
    at: AtNext,
    pool: PoolSlot,
    memory: &mut SeatMemory,
    next: Next,
    charge: u32,
) -> ActionId
    requires here { IsSeatOf row.now seat.old }
    requires slot { deque.0 + 2 < slot_count row.now }
    requires may { MayAct seat.old deque }
    requires ready { IsReadyWithPool (key_of row.now) seat.old deque pool at.lane at.running at.top 2 (spare memory.old.births) }
    requires pool { PoolIsReady (key_of row.now) pool }
    requires none { entries memory.old.births ≡ [] }
    requires place { IsSome memory.old.place }
    requires next { next_of at.top ≡ Some next }
    requires uses { MayUse (key_of row.now) seat.old.hand.note.worker next charge at.top at.running.period }
    requires fits { pool.pool.live + words_asked_by next ≤ pool.pool.capacity }
    requires back { words_back at.top next ≤ pool.pool.live }
    requires suits { IsWithPool next at.top at.lane.items }
    ensures seat { HasPut seat.old (told_note seat.old.hand.note (Some deque) (Did result)) [] seat.new }
    ensures name { result ≡ next_name at.top }
    ensures none { entries memory.new.births ≡ [] }
{
    let AtNext { lane, running, top } = at;
    let mut lane = lane;
    let mut running = running;
    let mut pool = pool;
    let name = do_with_pool(
        &mut lane,
        &mut running.period,
        &mut pool,
        memory,
        top,
        next,
        charge,
    );
    let running = Some(running);
    let lane = LaneSlot { lane, running };
    let event = Event::Did(name);
    let owns = Some(deque);
    put_pool_and_lane(row, seat, deque, pool, lane, Noting::Does { event, owns });
    name
}
