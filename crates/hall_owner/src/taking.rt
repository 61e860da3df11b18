//! How an owner takes what its event needs beside its lane: the list, and then the pool.

ghost use Rattle.std.specs.Prelude.{◌≡◌, ◌+◌, ◌<◌, ℕ, IfOk, None};
ghost use Rattle.hall_actions.specs.Passed.HallNames.{key_of, slot_count, IsSeatOf, HasAllPlaces, MeetsLaw, Next as AnyNext};
ghost use Rattle.hall_actions.specs.Passed.Taken.{its_lane, list_and_lane};
ghost use Rattle.hall_actions.specs.WithPool.{words_asked_by};
ghost use Rattle.hall_actions.specs.Advancing.{IsNotBusy};
ghost use Rattle.hall_owner.specs.Asked.{IsWanted, IsWantedOfList};
ghost use Rattle.hall_owner.specs.Holding.{IsBefore};
ghost use Rattle.hall_owner.specs.Ready.{IsReadyTo};
ghost use Rattle.hall_owner.specs.Taking.{IsFullBy, TakesFor, TakesList, TakesPoolToo};
ghost use Rattle.hall_owner.specs.declared.wanted.Wanted.TheVariants as wanted_by_lane;

use crate::taken::Taken;
use crate::wanted::{Chosen, ListWanted, Wanted, choose, wanted_by};
use containers::Boxed;
use depth_first_list::Quota;
use deque_list::DequeId;
use hall_actions::{
    ActRefused, AtNext, Noting, WholeEvent, give_still_back, put_list_and_lane, put_pool_and_lane,
    put_together, return_answered,
};
use hall_slots::{HallPlace, HallRow, ListSlot, PoolSlot, end_of, take_list, take_pool};
use language_limits::RECORD_WORDS;
use play_rules::Stop;
use thread_actions::readiness_of;
use thread_frames::Next;

/// The words that an action takes of the arena.
fn words_asked(next: Next) -> u32
    ensures { result ≡ words_asked_by next }
{
    match next {
        Next::Fork => RECORD_WORDS,
        Next::Alloc { words } => words,
        _ => 0,
    }
}

/// Whether so many words do not fit a pool, as the stop that this is.
fn full_arena(pool: &PoolSlot, asked: u32) -> Option<Stop>
    ensures { IsFullBy pool.now asked result }
{
    let live = pool.pool.live();
    let asked = u64::from(asked);
    if pool.pool.capacity() < live + asked {
        return Some(Stop::ArenaFull { live, asked });
    }
    None
}

/// Takes the pool, where there is room for the words of the action. Fails if another seat holds it (never, if this one has all places), or the
/// words do not fit the arena, which the seat notes as the stop that it found. The seat holds nothing.
fn take_pool_for(
    row: &HallRow,
    seat: &mut HallPlace,
    deque: DequeId,
    at: AtNext,
    next: Next,
    charge: u32,
) -> Result<(AtNext, Taken), ActRefused>
    requires here { IsSeatOf row.now seat.old }
    requires slot { deque.0 + 2 < slot_count row.now }
    requires ready { (ready : ℕ) × IsReadyTo (key_of row.now) seat.old deque at next ready }
    requires wanted { IsWanted (key_of row.now) seat.old.hand.note.worker at next (wanted_by_lane.Pool charge) }
    ensures seat { TakesFor (key_of row.now) seat.old deque at next result seat.new }
    ensures lone { HasAllPlaces (key_of row.now) seat.old → IsNotBusy result }
{
    let pool = match take_pool(row, seat) {
        Ok(pool) => pool,
        Err(held) => {
            give_still_back(row, seat, deque, put_together(at));
            return Err(ActRefused::Busy(held));
        }
    };
    match full_arena(&pool, words_asked(next)) {
        Some(stop) => {
            let lane = put_together(at);
            put_pool_and_lane(row, seat, deque, pool, lane, Noting::Found(stop));
            Err(ActRefused::Stopped(stop))
        }
        None => Ok((at, Taken::WithPool { pool, next, charge })),
    }
}

/// Takes the list, in which no end is kept. Fails if another seat holds it (never, if this one has all places), or an end is kept there, which the
/// seat is answered. The seat holds nothing.
fn take_open_list(
    row: &HallRow,
    seat: &mut HallPlace,
    deque: DequeId,
    at: AtNext,
) -> Result<(AtNext, Boxed<ListSlot>), ActRefused>
    requires here { IsSeatOf row.now seat.old }
    requires slot { deque.0 + 2 < slot_count row.now }
    requires before { (next : AnyNext) × (ready : ℕ) × IsBefore (key_of row.now) seat.old deque (its_lane deque) at next ready }
    ensures seat { TakesList seat.old at result seat.new }
    ensures meets { IfOk result (λ _. MeetsLaw (key_of row.now) seat.new) }
    ensures lone { HasAllPlaces (key_of row.now) seat.old → IsNotBusy result }
{
    let list = match take_list(row, seat) {
        Ok(list) => list,
        Err(held) => {
            give_still_back(row, seat, deque, put_together(at));
            return Err(ActRefused::Busy(held));
        }
    };
    match end_of(&list) {
        Some(end) => {
            return_answered(row, seat, deque, list, put_together(at));
            Err(ActRefused::Over(end))
        }
        None => Ok((at, list)),
    }
}

/// Takes the pool beside the list. Fails if another seat holds it (never, if this one has all places). The seat holds nothing.
fn take_pool_too(
    row: &HallRow,
    seat: &mut HallPlace,
    deque: DequeId,
    at: AtNext,
    list: Boxed<ListSlot>,
    event: WholeEvent,
) -> Result<(AtNext, Taken), ActRefused>
    requires here { IsSeatOf row.now seat.old }
    requires slot { deque.0 + 2 < slot_count row.now }
    requires before { (next : AnyNext) × (ready : ℕ) × IsBefore (key_of row.now) seat.old deque (list_and_lane deque list) at next ready }
    ensures seat { TakesPoolToo (key_of row.now) seat.old at list event result seat.new }
    ensures lone { HasAllPlaces (key_of row.now) seat.old → IsNotBusy result }
{
    match take_pool(row, seat) {
        Ok(pool) => Ok((at, Taken::WithAll { list, pool, event })),
        Err(held) => {
            let lane = put_together(at);
            put_list_and_lane(row, seat, deque, list, lane, Noting::Same);
            Err(ActRefused::Busy(held))
        }
    }
}

/// Takes the list, chooses the event by what is kept there, and takes the pool if this needs it. Fails if another seat holds one of them (never, if
/// this one has all places), or an end is kept in the list. The seat holds nothing.
fn take_list_for(
    row: &HallRow,
    seat: &mut HallPlace,
    deque: DequeId,
    at: AtNext,
    next: Next,
    wanted: ListWanted,
) -> Result<(AtNext, Taken), ActRefused>
    requires here { IsSeatOf row.now seat.old }
    requires slot { deque.0 + 2 < slot_count row.now }
    requires ready { (ready : ℕ) × IsReadyTo (key_of row.now) seat.old deque at next ready }
    requires wanted { IsWantedOfList (key_of row.now) at next wanted }
    ensures seat { TakesFor (key_of row.now) seat.old deque at next result seat.new }
    ensures lone { HasAllPlaces (key_of row.now) seat.old → IsNotBusy result }
{
    // For the prover alone: clauses name this parameter.
    let _next = next;
    let (at, list) = take_open_list(row, seat, deque, at)?;
    match choose(&at, &list, wanted) {
        Chosen::Alone(event) => Ok((at, Taken::WithList { list, event })),
        Chosen::Beside(event) => take_pool_too(row, seat, deque, at, list, event),
    }
}

/// Takes what the event needs for which the next action asks. Fails if another seat holds a slot that the event needs (never, if this one has all
/// places), an end is kept in the list that it needs, or the words of the action do not fit the arena. The seat holds nothing.
pub(crate) fn take_for(
    row: &HallRow,
    seat: &mut HallPlace,
    deque: DequeId,
    quota: Quota,
    at: AtNext,
    next: Next,
) -> Result<(AtNext, Taken), ActRefused>
    requires here { IsSeatOf row.now seat.old }
    requires slot { deque.0 + 2 < slot_count row.now }
    requires quota { (key_of row.now).quota ≡ quota }
    requires ready { (ready : ℕ) × IsReadyTo (key_of row.now) seat.old deque at next ready }
    ensures seat { TakesFor (key_of row.now) seat.old deque at next result seat.new }
    ensures lone { HasAllPlaces (key_of row.now) seat.old → IsNotBusy result }
{
    let readiness = readiness_of(&at.running.period, &at.top, next, quota);
    match wanted_by(&at, next, readiness) {
        Wanted::Lane { child } => Ok((at, Taken::OnLane { child })),
        Wanted::Pool { charge } => take_pool_for(row, seat, deque, at, next, charge),
        Wanted::List(wanted) => take_list_for(row, seat, deque, at, next, wanted),
    }
}
