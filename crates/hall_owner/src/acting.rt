//! The next event of an owner, in one call.

ghost use Rattle.std.specs.Prelude.{◌≡◌, ◌+◌, ◌<◌, ℕ, [], IsSome};
ghost use Rattle.containers.specs.BoundedList.{entries, spare};
ghost use Rattle.hall_actions.specs.Passed.HallNames.{key_of, slot_count, IsSeatOf, HasAllPlaces, Next as AnyNext};
ghost use Rattle.hall_actions.specs.Passed.Puts.{HasPut};
ghost use Rattle.hall_actions.specs.Passed.Writes.{told_note};
ghost use Rattle.hall_actions.specs.WithList.{IsNamedAs};
ghost use Rattle.hall_slots.specs.declared.event.Event.TheVariants.{Did};
ghost use Rattle.hall_owner.specs.Acting.{DoesWith, Acts, Does};
ghost use Rattle.hall_owner.specs.Holding.{IsBefore};
ghost use Rattle.hall_owner.specs.Ready.{IsReadyFor, IsReadyOn, IsReadyTo};
ghost use Rattle.hall_owner.specs.Taken.{slots_of, IsNotedOn};
ghost use Rattle.hall_owner.specs.Taking.{Prepares};
ghost use Rattle.hall_actions.specs.Advancing.{IsRunBy, MayCome, IsNotBusy};

use crate::taken::{Taken, give_back, is_counted, make_room};
use crate::taking::take_for;
use dag_order::ActionId;
use depth_first_list::Quota;
use deque_list::DequeId;
use hall_actions::{
    ActRefused, AtNext, Noting, SeatMemory, act_own_join, act_with_all, act_with_list,
    act_with_pool, come_to_next,
};
use hall_slots::{Event, HallPlace, HallRow, count_action};
use play_rules::Stop;
use std::alloc::Global;
use thread_frames::{Code, Next};

/// What an owner did.
#[derive(Clone, Copy, PartialEq, Eq, Debug)]
pub struct Acted {
    pub event: Event,
    /// The deque that it owns then, if any.
    pub owned: Option<DequeId>,
}

/// Asks for the memory that the event needs, and counts it if it is an action. Fails if there is not enough memory, or as many actions as are
/// allowed were counted before. The seat holds nothing.
fn prepare(
    row: &HallRow,
    seat: &mut HallPlace,
    deque: DequeId,
    limit: u32,
    at: AtNext,
    taken: Taken,
) -> Result<(AtNext, Taken), ActRefused>
    requires here { IsSeatOf row.now seat.old }
    requires slot { deque.0 + 2 < slot_count row.now }
    requires limit { limit ≡ (key_of row.now).actions }
    requires before { (next : AnyNext) × (ready : ℕ) × IsBefore (key_of row.now) seat.old deque (slots_of deque taken) at next ready }
    ensures seat { Prepares (key_of row.now) seat.old at taken result seat.new }
    ensures never { IsNotBusy result }
{
    let mut taken = taken;
    match make_room(&mut taken) {
        Ok(()) => (),
        Err(_) => {
            let noting = Noting::Found(Stop::OutOfMemory);
            give_back(row, seat, deque, at, taken, noting);
            return Err(ActRefused::Stopped(Stop::OutOfMemory));
        }
    }
    if !is_counted(&taken) {
        return Ok((at, taken));
    }
    match count_action(row, seat, limit) {
        Ok(()) => Ok((at, taken)),
        Err(stop) => {
            give_back(row, seat, deque, at, taken, Noting::Same);
            Err(ActRefused::Stopped(stop))
        }
    }
}

/// An action, after which the seat owns this deque or none.
fn did(name: ActionId, owned: Option<DequeId>) -> Acted
    ensures event { result.event ≡ Did name }
    ensures owned { result.owned ≡ owned }
{
    Acted {
        event: Event::Did(name),
        owned,
    }
}

/// Does the event to what was taken and to the lane, and puts all of it back.
fn act_on(
    row: &HallRow,
    seat: &mut HallPlace,
    deque: DequeId,
    memory: &mut SeatMemory,
    at: AtNext,
    taken: Taken,
) -> Acted
    requires here { IsSeatOf row.now seat.old }
    requires slot { deque.0 + 2 < slot_count row.now }
    requires ready { IsReadyOn (key_of row.now) seat.old deque at (spare memory.old.births) taken }
    requires none { entries memory.old.births ≡ [] }
    requires place { IsSome memory.old.place }
    ensures seat { HasPut seat.old (told_note seat.old.hand.note result.owned result.event) [] seat.new }
    ensures notes { IsNotedOn taken deque at.top result.event result.owned }
    ensures named { IsNamedAs at.top result.event }
    ensures none { entries memory.new.births ≡ [] }
{
    match taken {
        Taken::OnLane { child: _child } => {
            let AtNext { lane, running, top } = at;
            let first = &mut memory.births;
            let name = act_own_join(row, seat, deque, lane, running, top, first);
            did(name, Some(deque))
        }
        Taken::WithPool { pool, next, charge } => {
            let name = act_with_pool(row, seat, deque, at, pool, memory, next, charge);
            did(name, Some(deque))
        }
        Taken::WithList { list, event } => {
            let done = act_with_list(row, seat, deque, at, list, memory, event);
            Acted {
                event: done.0,
                owned: done.1,
            }
        }
        Taken::WithAll { list, pool, event } => {
            let done = act_with_all(row, seat, deque, at, list, pool, memory, event);
            did(done.0, done.1)
        }
    }
}

/// Does the event for which the seat took what it needs. Fails if there is not enough memory, or as many actions as are allowed were counted
/// before. The seat holds nothing.
pub(crate) fn do_event(
    row: &HallRow,
    seat: &mut HallPlace,
    deque: DequeId,
    limit: u32,
    memory: &mut SeatMemory,
    at: AtNext,
    taken: Taken,
) -> Result<Acted, ActRefused>
    requires here { IsSeatOf row.now seat.old }
    requires slot { deque.0 + 2 < slot_count row.now }
    requires limit { limit ≡ (key_of row.now).actions }
    requires ready { (next : AnyNext) × IsReadyFor (key_of row.now) seat.old deque at next (spare memory.old.births) taken }
    requires births { entries memory.old.births ≡ [] }
    requires place { IsSome memory.old.place }
    ensures seat { (next : AnyNext) → IsReadyFor (key_of row.now) seat.old deque at next (spare memory.old.births) taken
        → DoesWith (key_of row.now) seat.old deque at next taken result seat.new }
    ensures births { entries memory.new.births ≡ [] }
    ensures never { IsNotBusy result }
{
    let (at, taken) = prepare(row, seat, deque, limit, at, taken)?;
    Ok(act_on(row, seat, deque, memory, at, taken))
}

/// Does the event for which the action asks before which the top thread is. The terms are the quota, and how many actions may be counted.
fn go_on(
    row: &HallRow,
    seat: &mut HallPlace,
    deque: DequeId,
    terms: (Quota, u32),
    memory: &mut SeatMemory,
    at: AtNext,
    next: Next,
) -> Result<Acted, ActRefused>
    requires here { IsSeatOf row.now seat.old }
    requires slot { deque.0 + 2 < slot_count row.now }
    requires quota { (key_of row.now).quota ≡ terms.0 }
    requires limit { terms.1 ≡ (key_of row.now).actions }
    requires ready { IsReadyTo (key_of row.now) seat.old deque at next (spare memory.old.births) }
    requires births { entries memory.old.births ≡ [] }
    requires place { IsSome memory.old.place }
    ensures seat { Does (key_of row.now) seat.old deque at next result seat.new }
    ensures births { entries memory.new.births ≡ [] }
    ensures lone { HasAllPlaces (key_of row.now) seat.old → IsNotBusy result }
{
    let (at, taken) = take_for(row, seat, deque, terms.0, at, next)?;
    do_event(row, seat, deque, terms.1, memory, at, taken)
}

/// Does the next event of a seat that owns a deque: its top thread does its next action, or waits for a child, or the deque is given up. Which of
/// these it is, and which deque the seat owns then, is shown by what it saw: its lane, and the list, the pool and the count if it took them.
///
/// # Errors
///
/// Another seat holds a slot that the event needs, an end is kept in the list that it took, or the seat found a stop: the words of the action do not
/// fit the arena, there is not enough memory, or as many actions as are allowed were counted. What the seat saw shows this. The moment of the hall is
/// what it was, and the seat holds nothing.
pub fn act(
    row: &HallRow,
    seat: &mut HallPlace,
    deque: DequeId,
    code: &Code,
    quota: Quota,
    limit: u32,
    alloc: Global,
    memory: &mut SeatMemory,
) -> Result<Acted, ActRefused>
    requires here { IsSeatOf row.now seat.old }
    requires slot { deque.0 + 2 < slot_count row.now }
    requires terms { IsRunBy (key_of row.now) code.now quota }
    requires limit { limit ≡ (key_of row.now).actions }
    requires may { MayCome seat.old deque }
    requires births { entries memory.old.births ≡ [] }
    ensures seat { Acts (key_of row.now) seat.old deque result seat.new }
    ensures births { entries memory.new.births ≡ [] }
    ensures lone { HasAllPlaces (key_of row.now) seat.old → IsNotBusy result }
{
    match come_to_next(row, seat, deque, code, quota, alloc, memory) {
        Ok((at, next)) => go_on(row, seat, deque, (quota, limit), memory, at, next),
        Err(refused) => Err(refused),
    }
}
