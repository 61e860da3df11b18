//! The event of a worker, whether it is idle or not.

ghost use Rattle.std.specs.Prelude.{◌≡◌, ◌≢◌, ◌<◌, ◌≤◌, ◌+◌, ◌/◌, ◌↔◌, ℕ, List as AnyList, None, Some, Ok, Err, OnOk, IsOk, length};
ghost use Rattle.language_limits.specs.declared.TheConstants.{GREATEST_COUNT, MOST_WORKERS, RECORD_WORDS};
ghost use Rattle.depth_first_run.specs.States.{Setting};
ghost use Rattle.deque_list.specs.declared.deque_id.DequeId.{DequeId};
ghost use Rattle.deque_machine.specs.Moments.{Moment};
ghost use Rattle.deque_machine.specs.Runs.{Pair};
ghost use Rattle.deque_machine.specs.Terms.{machine_of};
ghost use Rattle.depth_first_list.specs.QuotaWords.{quota_words};
ghost use Rattle.node_table.specs.Codes.{code_shown};
ghost use Rattle.scheduler_state.specs.Passed.Tables.{deque_at, seat_at};
ghost use Rattle.scheduler_state.specs.Passed.Settings.{IsSettingOf};
ghost use Rattle.play_rules.specs.Choices.{SomeReady};
ghost use Rattle.play_rules.specs.declared.stop.Stop.{Stop as AnyStop};
ghost use Rattle.play_rules.specs.declared.stop.Stop.TheVariants as stops;
ghost use Rattle.scheduler_state.specs.Held.{held};
ghost use Rattle.scheduler_state.specs.Moments.{IsSound, CanGoOn, SameTerms, HasRun, terms_of};
ghost use Rattle.ready_machine.specs.Entries.{IsReadyList};
ghost use Rattle.async_core.specs.Steps.{EventBy, EventOrNone, StandsReady};

use crate::aside::set_parent_aside;
use containers::Boxed;
use depth_first_list::Quota;
use deque_list::{InsertRefused, List};
use play_rules::Stop;
use scheduler_state::{Event, Scheduler};
use std::alloc::Global;
use thread_frames::{Code, Thread};
use worker_step::{step_of_owner, step_of_thief};

/// Makes room for one more entry, if one more is allowed.
///
/// # Errors
///
/// There is not enough memory. A full list is no error.
fn make_room(list: &mut List<Boxed<Thread>>) -> Result<(), Stop>
    ensures deques { list.new.deques ≡ list.old.deques }
    ensures most { list.new.most ≡ list.old.most }
    ensures room { OnOk result (length list.old.deques < list.old.most → list.new.spare ≡ 1) }
    ensures stop { (stop : AnyStop) → result ≡ Err stop → stop ≡ stops.OutOfMemory }
    ensures full { length list.old.deques ≡ list.old.most → IsOk result }
{
    match list.room_right() {
        Ok(()) => Ok(()),
        Err(InsertRefused::Full { .. }) => Ok(()),
        Err(InsertRefused::OutOfMemory) => Err(Stop::OutOfMemory),
    }
}

/// The event of a worker that runs an entry: its thread does its next action, or waits, or is given up. After a Fork it runs the child, and the
/// parent is ready.
///
/// # Errors
///
/// What stops it; then nothing has changed but memory. Where memory is wanting the thread may be of no further use.
fn event_of_entry(
    scheduler: &mut Scheduler,
    alloc: Global,
    code: &Code,
    k: Quota,
    limit: u32,
    worker: usize,
) -> Result<Event, Stop>
    requires sound { IsSound (code_shown code.now) (quota_words k) (terms_of scheduler.old limit) (held scheduler.old) }
    requires points { CanGoOn (code_shown code.now) (quota_words k) (held scheduler.old) }
    requires owner { (id : DequeId) × (deque_at scheduler.old.table worker ≡ Some id) }
    requires within { worker < length scheduler.old.table.seats.items }
    requires few { limit < GREATEST_COUNT }
    requires done { scheduler.old.done ≤ limit }
    requires most { scheduler.old.list.most ≡ 1 + scheduler.old.pool.capacity / RECORD_WORDS }
    requires ready { StandsReady (code_shown code.now) (quota_words k) (terms_of scheduler.old limit) (held scheduler.old) }
    ensures sound { IsSound (code_shown code.now) (quota_words k) (terms_of scheduler.new limit) (held scheduler.new) }
    ensures points { result ≢ Err stops.OutOfMemory → CanGoOn (code_shown code.now) (quota_words k) (held scheduler.new) }
    ensures steps { (c : Setting) → IsSettingOf (code_shown code.now) (quota_words k) c → (run : AnyList Pair) (m : Moment)
        → HasRun c (terms_of scheduler.old limit) (held scheduler.old) run m → IsReadyList (machine_of c (terms_of scheduler.old limit)) m
        → EventBy c (terms_of scheduler.old limit) (held scheduler.new) worker run m result }
    ensures terms { SameTerms scheduler.old scheduler.new }
{
    if let Err(stop) = make_room(&mut scheduler.list) {
        return Err(stop);
    }
    match step_of_owner(scheduler, alloc, code, k, limit, worker) {
        Err(stop) => Err(stop),
        Ok(event) => {
            // For the prover alone: a pool has no more words in use than there are.
            let _live = scheduler.pool.live();
            set_parent_aside(scheduler, worker);
            Ok(event)
        }
    }
}

/// The event of a worker. None comes exactly if it is idle and no entry in reach is ready.
///
/// # Errors
///
/// What stops it; then nothing has changed but memory. Where memory is wanting a thread may be of no further use.
pub(crate) fn event_of(
    scheduler: &mut Scheduler,
    alloc: Global,
    code: &Code,
    k: Quota,
    limit: u32,
    worker: u32,
) -> Result<Option<Event>, Stop>
    requires sound { IsSound (code_shown code.now) (quota_words k) (terms_of scheduler.old limit) (held scheduler.old) }
    requires points { CanGoOn (code_shown code.now) (quota_words k) (held scheduler.old) }
    requires within { worker < length scheduler.old.table.seats.items }
    requires workers { length scheduler.old.table.seats.items ≤ MOST_WORKERS }
    requires few { limit < GREATEST_COUNT }
    requires done { scheduler.old.done ≤ limit }
    requires most { scheduler.old.list.most ≡ 1 + scheduler.old.pool.capacity / RECORD_WORDS }
    requires ready { StandsReady (code_shown code.now) (quota_words k) (terms_of scheduler.old limit) (held scheduler.old) }
    ensures nothing { (result ≡ Ok None)
        ↔ ((seat_at scheduler.old.table worker ≡ None) × (¬ SomeReady (length scheduler.old.table.seats.items) scheduler.old.list.deques)) }
    ensures still { result ≡ Ok None → scheduler.new ≡ scheduler.old }
    ensures sound { IsSound (code_shown code.now) (quota_words k) (terms_of scheduler.new limit) (held scheduler.new) }
    ensures points { result ≢ Err stops.OutOfMemory → CanGoOn (code_shown code.now) (quota_words k) (held scheduler.new) }
    ensures steps { (c : Setting) → IsSettingOf (code_shown code.now) (quota_words k) c → (run : AnyList Pair) (m : Moment)
        → HasRun c (terms_of scheduler.old limit) (held scheduler.old) run m → IsReadyList (machine_of c (terms_of scheduler.old limit)) m
        → EventOrNone c (terms_of scheduler.old limit) (held scheduler.new) worker run m result }
    ensures terms { SameTerms scheduler.old scheduler.new }
{
    if scheduler.table.seat(worker as usize).is_none() {
        let workers = scheduler.table.workers() as u32;
        return step_of_thief(scheduler, alloc, workers, worker, 0);
    }
    match event_of_entry(scheduler, alloc, code, k, limit, worker as usize) {
        Ok(event) => Ok(Some(event)),
        Err(stop) => Err(stop),
    }
}
