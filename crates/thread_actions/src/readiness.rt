//! Whether the top thread of a worker may do its next action.

ghost use Rattle.depth_first_list.specs.QuotaWords.{quota_words};
ghost use Rattle.thread_actions.specs.Readiness.{IsReadiness, UsesQuota, UsesResult};

use containers::Boxed;
use dag_order::ThreadId;
use depth_first_list::Quota;
use language_limits::RECORD_WORDS;
use open_periods::{Charge, Period};
use thread_frames::{Next, Thread};

/// Whether the top thread of a worker may do its next action.
#[derive(Clone, Copy, PartialEq, Eq, Debug)]
pub enum Readiness {
    /// It may, and the action uses `charge` words of the quota.
    Ready { charge: u32 },
    /// The action does not fit the rest of the quota: the worker has to give its deque up first.
    Spent,
    /// The thread joins this child, whose result it does not have.
    Missing { child: ThreadId },
}

/// Returns whether a thread may do this action in this period, by the quota and by the results that the thread has. Whether the arena has
/// room, and whether a result is kept elsewhere, is its caller's to ask.
pub fn readiness_of(period: &Period, top: &Boxed<Thread>, next: Next, k: Quota) -> Readiness
    ensures { IsReadiness period.now.used (quota_words k) top.now next result }
{
    match next {
        Next::Fork => by_quota(period, RECORD_WORDS, k),
        Next::Alloc { words } => by_quota(period, words, k),
        Next::Join { child } => by_result(top, child),
        _ => Readiness::Ready { charge: 0 },
    }
}

/// An action that takes so many words: it may come if they fit the rest of the quota, or are more than the whole of it.
fn by_quota(period: &Period, words: u32, k: Quota) -> Readiness
    ensures { UsesQuota period.now.used (quota_words k) words result }
{
    match period.charge(words, k) {
        Charge::Fits => Readiness::Ready { charge: words },
        Charge::Ends => Readiness::Spent,
        Charge::Large => Readiness::Ready { charge: 0 },
    }
}

/// The Join of a child: it may come if its result was delivered.
fn by_result(top: &Boxed<Thread>, child: ThreadId) -> Readiness
    ensures { UsesResult top.now child result }
{
    if top.get().delivered(child) {
        return Readiness::Ready { charge: 0 };
    }
    Readiness::Missing { child }
}
