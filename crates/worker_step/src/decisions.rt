//! What a worker does whose top thread comes to its next action.

ghost use Rattle.std.specs.Prelude.{◌≡◌, ◌≤◌, Some};
ghost use Rattle.language_limits.specs.declared.TheConstants.{GREATEST_QUOTA};
ghost use Rattle.depth_first_list.specs.QuotaWords.{quota_words};
ghost use Rattle.open_periods.specs.Periods.{Period};
ghost use Rattle.open_periods.specs.Tables.{period_at};
ghost use Rattle.worker_step.specs.Decisions.{Decides, DecidesByKept};

use containers::Boxed;
use dag_order::ThreadId;
use depth_first_list::Quota;
use scheduler_state::Scheduler;
use thread_actions::{Readiness, readiness_of};
use thread_frames::{Ended, Next, Thread};
use thread_map::ThreadMap;

/// What a worker does whose top thread comes to its next action.
#[derive(Clone, Copy)]
pub(crate) enum Decision {
    /// The thread does the action, which uses `charge` words of the quota.
    Act { charge: u32 },
    /// The action does not fit what is left of the quota: the worker gives its deque up.
    GiveUp,
    /// The child that is joined has not ended: the thread waits for it.
    Wait { child: ThreadId },
}

/// What the worker does whose top thread comes to this action.
pub(crate) fn decide(
    scheduler: &Scheduler,
    worker: usize,
    top: &Boxed<Thread>,
    next: Next,
    k: Quota,
) -> Decision
    requires { (p : Period) × (period_at scheduler.now.table worker ≡ Some p) }
    ensures decides { Decides scheduler.now worker (quota_words k) top.now next result }
    ensures bounded { quota_words k ≤ GREATEST_QUOTA }
{
    let Some(seat) = scheduler.table.seat(worker) else {
        unreachable!();
    };
    match readiness_of(&seat.period, top, next, k) {
        Readiness::Ready { charge } => Decision::Act { charge },
        Readiness::Spent => Decision::GiveUp,
        Readiness::Missing { child } => by_kept(&scheduler.results, child),
    }
}

/// The Join of a child whose result was not delivered: it is done if the result is kept.
fn by_kept(results: &ThreadMap<Ended>, child: ThreadId) -> Decision
    ensures { DecidesByKept results.now child result }
{
    if results.has(child) {
        Decision::Act { charge: 0 }
    } else {
        Decision::Wait { child }
    }
}
