//! The step of a worker that owns a deque.

ghost use Rattle.std.specs.Prelude.{◌≡◌, ◌≢◌, ◌≤◌, ◌<◌, ℕ, List as AnyList, Some, Err};
ghost use Rattle.language_limits.specs.declared.TheConstants.{GREATEST_COUNT, GREATEST_QUOTA};
ghost use Rattle.depth_first_list.specs.QuotaWords.{quota_words};
ghost use Rattle.node_table.specs.Codes.{code_shown};
ghost use Rattle.node_table.specs.Table.{Table};
ghost use Rattle.open_periods.specs.Tables.{deque_at};
ghost use Rattle.play_rules.specs.declared.stop.Stop.TheVariants as stops;
ghost use Rattle.scheduler_state.specs.Held.{held};
ghost use Rattle.scheduler_state.specs.Moments.{IsSound, CanGoOn, SameTerms, terms_of};
ghost use Rattle.depth_first_run.specs.States.{Setting};
ghost use Rattle.open_periods.specs.Passed.Moments.{Moment};
ghost use Rattle.open_periods.specs.Passed.DequeMachineRuns.{Pair};
ghost use Rattle.scheduler_state.specs.Passed.Settings.{IsSettingOf};
ghost use Rattle.scheduler_state.specs.Moments.{HasRun};
ghost use Rattle.scheduler_state.specs.Outcomes.{StepsTo};
ghost use Rattle.worker_step.specs.Decisions.{Decides};
ghost use Rattle.worker_step.specs.declared.decisions.Decision.TheVariants as decisions;
ghost use Rattle.worker_step.specs.Memory.{words_taken_by};
ghost use Rattle.worker_step.specs.Steps.{IsBeforeAction, ComesUnder};

use crate::acts::act;
use crate::decisions::{Decision, decide};
use crate::leaves::{give_up, suspend};
use crate::refusals::test_action;
use crate::tops::{put_back, take_top};
use containers::Boxed;
use depth_first_list::Quota;
use deque_list::DequeId;
use language_limits::RECORD_WORDS;
use play_rules::Stop;
use scheduler_state::{Event, Scheduler};
use std::alloc::Global;
use thread_actions::{advance, take_result};
use thread_frames::{Code, Next, Thread};

/// The words that an action takes.
fn words_taken(next: Next) -> u32
    ensures { result ≡ words_taken_by next }
{
    match next {
        Next::Fork => RECORD_WORDS,
        Next::Alloc { words } => words,
        _ => 0,
    }
}

/// The top thread does its next action, which uses `charge` words of the quota where it is an Alloc, or meets a stop.
fn act_or_stop(
    scheduler: &mut Scheduler,
    k: Quota,
    limit: u32,
    worker: usize,
    deque: DequeId,
    top: Boxed<Thread>,
    next: Next,
    charge: u32,
) -> Result<Event, Stop>
    requires ready { (t : Table) × IsBeforeAction t (quota_words k) limit scheduler.old worker deque top next }
    requires decides { Decides scheduler.old worker (quota_words k) top next (decisions.Act charge) }
    requires bounded { quota_words k ≤ GREATEST_QUOTA }
    ensures { (t : Table) → IsBeforeAction t (quota_words k) limit scheduler.old worker deque top next
        → ComesUnder t (quota_words k) limit worker deque top scheduler.old scheduler.new result }
{
    if let Err(stop) = test_action(scheduler, limit, u64::from(words_taken(next))) {
        put_back(scheduler, worker, deque, top);
        return Err(stop);
    }
    let mut top = top;
    take_result(&mut scheduler.results, &mut top, next);
    Ok(Event::Acted(act(scheduler, worker, deque, top, next, charge)))
}

/// The top thread comes to its next action.
fn go_on(
    scheduler: &mut Scheduler,
    k: Quota,
    limit: u32,
    worker: usize,
    deque: DequeId,
    top: Boxed<Thread>,
    next: Next,
) -> Result<Event, Stop>
    requires ready { (t : Table) × IsBeforeAction t (quota_words k) limit scheduler.old worker deque top next }
    ensures { (t : Table) → IsBeforeAction t (quota_words k) limit scheduler.old worker deque top next
        → ComesUnder t (quota_words k) limit worker deque top scheduler.old scheduler.new result }
{
    match decide(scheduler, worker, &top, next, k) {
        Decision::Act { charge } => {
            act_or_stop(scheduler, k, limit, worker, deque, top, next, charge)
        }
        Decision::GiveUp => Ok(give_up(scheduler, worker, deque, top)),
        Decision::Wait { child } => Ok(suspend(scheduler, worker, deque, top, child)),
    }
}

/// The step of a worker that owns a deque: its top thread does its next action, or waits, or the worker gives the deque up.
///
/// # Errors
///
/// What stops the step; then all stands where it stood. Where memory is wanting the top thread may be of no further use.
pub fn step_of_owner(
    scheduler: &mut Scheduler,
    alloc: Global,
    code: &Code,
    k: Quota,
    limit: u32,
    worker: usize,
) -> Result<Event, Stop>
    requires sound { IsSound (code_shown code.now) (quota_words k) (terms_of scheduler.old limit) (held scheduler.old) }
    requires points { CanGoOn (code_shown code.now) (quota_words k) (held scheduler.old) }
    requires owner { (id : DequeId) × (deque_at scheduler.old.table worker ≡ Some id) }
    requires few { limit < GREATEST_COUNT }
    requires done { scheduler.old.done ≤ limit }
    ensures sound { IsSound (code_shown code.now) (quota_words k) (terms_of scheduler.new limit) (held scheduler.new) }
    ensures points { result ≢ Err stops.OutOfMemory → CanGoOn (code_shown code.now) (quota_words k) (held scheduler.new) }
    ensures steps { (c : Setting) → IsSettingOf (code_shown code.now) (quota_words k) c → (run : AnyList Pair) (m : Moment) (word : ℕ)
        → HasRun c (terms_of scheduler.old limit) (held scheduler.old) run m
        → StepsTo c (terms_of scheduler.old limit) (held scheduler.new) worker word run m result }
    ensures terms { SameTerms scheduler.old scheduler.new }
    ensures spare { scheduler.new.list.spare ≡ scheduler.old.list.spare }
{
    let Ok((deque, mut top)) = take_top(scheduler, alloc, worker) else {
        return Err(Stop::OutOfMemory);
    };
    // For the prover alone: a pool has no more words in use than a thread may hold.
    let _live = scheduler.pool.live();
    match advance(&mut top, alloc, code, k) {
        Ok(next) => go_on(scheduler, k, limit, worker, deque, top, next),
        Err(_) => {
            put_back(scheduler, worker, deque, top);
            Err(Stop::OutOfMemory)
        }
    }
}
