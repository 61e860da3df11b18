//! The event of a worker, whether it is idle or not.

ghost use Rattle.std.specs.Prelude.{◌≡◌, ◌≢◌, ◌<◌, ◌≤◌, ◌↔◌, List as AnyList, None, Ok, Err, length};
ghost use Rattle.language_limits.specs.declared.TheConstants.{GREATEST_COUNT, MOST_WORKERS};
ghost use Rattle.depth_first_run.specs.States.{Setting};
ghost use Rattle.open_periods.specs.Passed.Moments.{Moment};
ghost use Rattle.open_periods.specs.Passed.DequeMachineRuns.{Pair};
ghost use Rattle.depth_first_list.specs.QuotaWords.{quota_words};
ghost use Rattle.node_table.specs.Codes.{code_shown};
ghost use Rattle.open_periods.specs.Tables.{seat_at};
ghost use Rattle.scheduler_state.specs.Passed.Settings.{IsSettingOf};
ghost use Rattle.play_rules.specs.Choices.{SomeReady};
ghost use Rattle.play_rules.specs.declared.stop.Stop.TheVariants as stops;
ghost use Rattle.scheduler_state.specs.Held.{held};
ghost use Rattle.scheduler_state.specs.Moments.{IsSound, CanGoOn, SameTerms, HasRun, terms_of};
ghost use Rattle.worker_step.specs.Thefts.{StepsBy};

use depth_first_list::Quota;
use play_rules::Stop;
use scheduler_state::{Event, Scheduler};
use std::alloc::Global;
use thread_frames::Code;
use worker_step::{step_of_owner, step_of_thief};

/// The event of a worker. None comes exactly where it is idle and nothing in reach can be stolen.
///
/// # Errors
///
/// What stops it; then all stands where it stood. Where memory is wanting a thread may be of no further use.
pub(crate) fn event_of(
    scheduler: &mut Scheduler,
    alloc: Global,
    code: &Code,
    k: Quota,
    limit: u32,
    worker: u32,
    word: u64,
) -> Result<Option<Event>, Stop>
    requires sound { IsSound (code_shown code.now) (quota_words k) (terms_of scheduler.old limit) (held scheduler.old) }
    requires points { CanGoOn (code_shown code.now) (quota_words k) (held scheduler.old) }
    requires within { worker < length scheduler.old.table.seats.items }
    requires workers { length scheduler.old.table.seats.items ≤ MOST_WORKERS }
    requires few { limit < GREATEST_COUNT }
    requires done { scheduler.old.done ≤ limit }
    ensures nothing { (result ≡ Ok None)
        ↔ ((seat_at scheduler.old.table worker ≡ None) × (¬ SomeReady (length scheduler.old.table.seats.items) scheduler.old.list.deques)) }
    ensures still { result ≡ Ok None → scheduler.new ≡ scheduler.old }
    ensures sound { IsSound (code_shown code.now) (quota_words k) (terms_of scheduler.new limit) (held scheduler.new) }
    ensures points { result ≢ Err stops.OutOfMemory → CanGoOn (code_shown code.now) (quota_words k) (held scheduler.new) }
    ensures steps { (c : Setting) → IsSettingOf (code_shown code.now) (quota_words k) c → (run : AnyList Pair) (m : Moment)
        → HasRun c (terms_of scheduler.old limit) (held scheduler.old) run m
        → StepsBy c (terms_of scheduler.old limit) (held scheduler.new) worker word run m result }
    ensures terms { SameTerms scheduler.old scheduler.new }
{
    if scheduler.table.seat(worker as usize).is_none() {
        let workers = scheduler.table.workers() as u32;
        return step_of_thief(scheduler, alloc, workers, worker, word);
    }
    match step_of_owner(scheduler, alloc, code, k, limit, worker as usize) {
        Ok(event) => Ok(Some(event)),
        Err(stop) => Err(stop),
    }
}
