//! What an owner does with results in the list.

ghost use Rattle.std.specs.Prelude.{◌≡◌, Some, true};
ghost use Rattle.hall_parts.specs.HallNames.{is_there, children_of, join_words_of, newest, Ended as AnyEnded, Thread as AnyThread, kept_under, HallKey};
ghost use Rattle.hall_parts.specs.Passed.Joins.{released};
ghost use Rattle.hall_parts.specs.ListCalls.{IsHandedThere, KeepsCrew};
ghost use Rattle.hall_parts.specs.Passed.ThreadActionsResults.{HasCome};
ghost use Rattle.hall_actions.specs.Kept.{CanJoinKept};

use containers::Boxed;
use dag_order::ThreadId;
use hall_parts::deliver;
use hall_slots::ListSlot;
use thread_frames::Thread;

/// Returns the id of a thread.
pub fn id_of(top: &Boxed<Thread>) -> ThreadId
    ensures { result ≡ AnyThread.id top.now }
{
    top.get().id()
}

/// Hands the result of a child, which is kept in the list, over to the thread that joins it. The words that the Join gives back are then those that
/// the result would release.
pub(crate) fn hand_over(list: &mut ListSlot, top: &mut Boxed<Thread>, child: ThreadId)
    requires { (key : HallKey) × CanJoinKept key list.old top.old child }
    ensures come { HasCome list.old.part.results list.new.part.results top.old top.new child }
    ensures shown { IsHandedThere list.old list.new top.old top.new child }
    ensures words { (ended : AnyEnded) → kept_under list.old.part.results child ≡ Some ended
        → join_words_of top.new ≡ released top.old.run.state ended.state }
    ensures there { is_there (newest (children_of top.new)) ≡ true }
    ensures waiting { list.new.part.waiting ≡ list.old.part.waiting }
    ensures rest { KeepsCrew list.old list.new }
{
    let Some(ended) = list.part.results.take(child) else {
        unreachable!();
    };
    deliver(top, ended);
}
