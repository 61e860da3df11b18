ghost use Rattle.std.specs.Prelude.{◌≡◌, ◌≢◌, ◌≤◌, ◌<◌, ◌+◌, ◌∷◌, ◌++◌, ◌↔◌, [], ℕ, List as AnyList, Option as AnyOption, None, Ok, Err, IfOk, length, slice_get};
ghost use Rattle.language_limits.specs.declared.TheConstants.{GREATEST_COUNT};
ghost use Rattle.depth_first_run.specs.States.{Setting};
ghost use Rattle.open_periods.specs.Passed.Moments.{Moment};
ghost use Rattle.open_periods.specs.Passed.DequeMachineRuns.{Pair};
ghost use Rattle.node_table.specs.Table.{Table};
ghost use Rattle.scheduler_state.specs.Passed.Settings.{IsSettingOf};
ghost use Rattle.open_periods.specs.Tables.{seat_at};
ghost use Rattle.list_changes.specs.Shown.{Holds};
ghost use Rattle.play_rules.specs.Choices.{SomeReady, IsReadyAt};
ghost use Rattle.play_rules.specs.declared.stop.Stop.{Stop as AnyStop};
ghost use Rattle.play_rules.specs.declared.stop.Stop.TheVariants as stops;
ghost use Rattle.scheduler_state.specs.Held.{held};
ghost use Rattle.scheduler_state.specs.Moments.{IsSound, CanGoOn, SameTerms, HasRun, terms_of};
ghost use Rattle.worker_step.specs.Thefts.{Thieves, StepsBy};

use deque_list::{DequeId, InsertRefused};
use open_periods::{Period, PeriodTable};
use play_rules::{Stop, first_ready};
use scheduler_state::{Event, Scheduler};
use std::alloc::Global;
use thread_frames::Thread;

/// The number of the next period.
///
/// # Errors
///
/// Each number of a period is taken; memory is then said to be wanting. A run would have to begin 4,294,967,295 periods.
fn next_number(table: &PeriodTable) -> Result<u32, Stop>
    ensures next { IfOk result (λ number. number ≡ table.now.begun + 1) }
    ensures taken { (stop : AnyStop) → result ≡ Err stop → (stop ≡ stops.OutOfMemory) × (table.now.begun ≡ GREATEST_COUNT) }
{
    match table.begun().checked_add(1) {
        Some(number) => Ok(number),
        None => Err(Stop::OutOfMemory),
    }
}

/// A thief takes the bottom thread of a deque that keeps others into a new deque to the right of it.
///
/// # Errors
///
/// No further deque is allowed, or there is not enough memory. No deque and no period has changed.
fn steal_beside(
    scheduler: &mut Scheduler,
    alloc: Global,
    worker: u32,
    victim: DequeId,
) -> Result<Event, Stop>
    requires victim { (owner : AnyOption ℕ) × (first : Thread) × (others : AnyList Thread) × (bottom : Thread)
        × Holds scheduler.old.list victim owner (first ∷ (others ++ bottom ∷ [])) }
    requires within { worker < length scheduler.old.table.seats.items }
    requires idle { seat_at scheduler.old.table worker ≡ None }
    ensures { (owner : AnyOption ℕ) (first : Thread) (others : AnyList Thread) (bottom : Thread)
        (holds : Holds scheduler.old.list victim owner (first ∷ (others ++ bottom ∷ [])))
        → Thieves worker (length (Holds.left holds)) scheduler.old scheduler.new result }
{
    match scheduler.list.room_right() {
        Ok(()) => {}
        Err(InsertRefused::Full { deques }) => return Err(Stop::DequesFull { deques }),
        Err(InsertRefused::OutOfMemory) => return Err(Stop::OutOfMemory),
    }
    let number = next_number(&scheduler.table)?;
    let Ok(period) = Period::start(alloc, number, true) else {
        return Err(Stop::OutOfMemory);
    };
    let deque = list_changes::steal_beside(
        &mut scheduler.list,
        &mut scheduler.table,
        worker,
        victim,
        period,
    );
    Ok(Event::Stole {
        deque,
        period: number,
    })
}

/// A thief takes a deque over that has no owner and one thread, at a place from 0 at the left.
///
/// # Errors
///
/// There is not enough memory. No deque and no period has changed.
fn take_over(
    scheduler: &mut Scheduler,
    alloc: Global,
    worker: u32,
    victim: DequeId,
    place: u32,
) -> Result<Event, Stop>
    requires victim { (thread : Thread) × (holds : Holds scheduler.old.list victim None (thread ∷ []))
        × (length (Holds.left holds) ≡ place) }
    requires within { worker < length scheduler.old.table.seats.items }
    requires idle { seat_at scheduler.old.table worker ≡ None }
    ensures { Thieves worker place scheduler.old scheduler.new result }
{
    let number = next_number(&scheduler.table)?;
    let Ok(period) = Period::start(alloc, number, place > 0) else {
        return Err(Stop::OutOfMemory);
    };
    list_changes::take_over(
        &mut scheduler.list,
        &mut scheduler.table,
        worker,
        victim,
        period,
    );
    Ok(Event::Stole {
        deque: victim,
        period: number,
    })
}

/// A thief takes the bottom thread of the deque at a place, from 0 at the left, that has a thread to steal.
///
/// # Errors
///
/// No further deque is allowed, or there is not enough memory. No deque and no period has changed.
fn steal_at(
    scheduler: &mut Scheduler,
    alloc: Global,
    worker: u32,
    place: u32,
) -> Result<Event, Stop>
    requires ready { IsReadyAt scheduler.old.list.deques place }
    requires within { worker < length scheduler.old.table.seats.items }
    requires idle { seat_at scheduler.old.table worker ≡ None }
    requires sound { (t : Table) × (k : ℕ) × (limit : ℕ) × IsSound t k (terms_of scheduler.old limit) (held scheduler.old) }
    ensures { Thieves worker place scheduler.old scheduler.new result }
{
    let Some(victim) = scheduler.list.place(place) else {
        unreachable!();
    };
    let threads = scheduler.list.lane(victim.id).len();
    if 2 <= threads {
        return steal_beside(scheduler, alloc, worker, victim.id);
    }
    if threads == 0 {
        // No deque of a run is without threads.
        unreachable!();
    }
    take_over(scheduler, alloc, worker, victim.id, place)
}

/// The step of an idle worker: it steals from the first deque in reach that has a thread to steal, as a word picks it. None comes exactly
/// where none has.
///
/// # Errors
///
/// What stops the theft; then all stands where it stood.
pub fn step_of_thief(
    scheduler: &mut Scheduler,
    alloc: Global,
    workers: u32,
    worker: u32,
    word: u64,
) -> Result<Option<Event>, Stop>
    requires workers { workers ≡ length scheduler.old.table.seats.items }
    requires within { worker < workers }
    requires idle { seat_at scheduler.old.table worker ≡ None }
    requires sound { (t : Table) × (k : ℕ) × (limit : ℕ) × IsSound t k (terms_of scheduler.old limit) (held scheduler.old) }
    ensures nothing { (result ≡ Ok None) ↔ ¬ SomeReady workers scheduler.old.list.deques }
    ensures still { result ≡ Ok None → scheduler.new ≡ scheduler.old }
    ensures sound { (t : Table) (k limit : ℕ) → IsSound t k (terms_of scheduler.old limit) (held scheduler.old)
        → IsSound t k (terms_of scheduler.new limit) (held scheduler.new) }
    ensures points { (t : Table) (k : ℕ) → CanGoOn t k (held scheduler.old) → CanGoOn t k (held scheduler.new) }
    ensures steps { (t : Table) (k limit : ℕ) → IsSound t k (terms_of scheduler.old limit) (held scheduler.old)
        → (c : Setting) → IsSettingOf t k c
        → (run : AnyList Pair) (m : Moment) → HasRun c (terms_of scheduler.old limit) (held scheduler.old) run m
        → StepsBy c (terms_of scheduler.old limit) (held scheduler.new) worker word run m result }
    ensures terms { SameTerms scheduler.old scheduler.new }
{
    let Some(place) = first_ready(&scheduler.list, workers, word) else {
        return Ok(None);
    };
    match steal_at(scheduler, alloc, worker, place) {
        Ok(event) => Ok(Some(event)),
        Err(stop) => Err(stop),
    }
}
