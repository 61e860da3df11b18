//! The calls on the list.

ghost use Rattle.std.specs.Prelude.{◌≡◌, ◌≤◌, ◌∷◌, ℕ, Option, None, Some, IfSome, IfNone};
ghost use Rattle.std.specs.List.Sorted.{IsPermutation};
ghost use Rattle.hall_slots.specs.Passed.Parts.{Has};
ghost use Rattle.space_ledger.specs.BooksList.{books_spare};
ghost use Rattle.hall_slots.specs.Passed.ThreadMapKept.{kept_under};
ghost use Rattle.thread_actions.specs.Results.{IsGiven};
ghost use Rattle.hall_parts.specs.HallNames.{IsAwaited, IsOnlyNewest, children_of, join_words_of, label_of, list_shown};
ghost use Rattle.thread_frames.specs.Passed.Joins.{released};
ghost use Rattle.hall_slots.specs.ListCalls.{IsGone};
ghost use Rattle.hall_parts.specs.ListCalls.{SuspendsThere, LeavesThere, TakesWaiting, KeepsCrew};

use containers::Boxed;
use dag_order::ThreadId;
use deque_list::DequeId;
use hall_slots::{ListSlot, Running};
use thread_frames::{Ended, Thread};

/// Lets a thread, alone in its deque, wait for a child: the deque is gone, and the period is closed. It takes no memory.
pub fn suspend(
    list: &mut ListSlot,
    deque: DequeId,
    running: Running,
    top: Boxed<Thread>,
    child: ThreadId,
)
    requires has { (owner : Option ℕ) × Has list.old.part.order.places deque owner }
    requires books { 1 ≤ books_spare list.old.part.books }
    requires room { 1 ≤ list.old.part.waiting.spare }
    requires free { kept_under list.old.part.waiting child ≡ None }
    ensures shown { SuspendsThere list.old list.new deque running top }
    ensures places { IsGone deque list.old.part.order.places list.new.part.order.places }
    ensures waiting { IsPermutation ((child, top) ∷ list.old.part.waiting.entries) list.new.part.waiting.entries }
    ensures results { list.new.part.results ≡ list.old.part.results }
    ensures rest { KeepsCrew list.old list.new }
{
    list.remove(deque, running);
    list.part.waiting.put(child, top);
}

/// Keeps the result of the thread of this id, which was alone in its deque, and for which nobody waits: the deque is gone, and the period is
/// closed. It takes no memory.
pub fn leave_result(
    list: &mut ListSlot,
    deque: DequeId,
    running: Running,
    id: ThreadId,
    ended: Ended,
)
    requires has { (owner : Option ℕ) × Has list.old.part.order.places deque owner }
    requires books { 1 ≤ books_spare list.old.part.books }
    requires room { 1 ≤ list.old.part.results.spare }
    requires free { kept_under list.old.part.results id ≡ None }
    ensures shown { LeavesThere list.old list.new deque running ended }
    ensures places { IsGone deque list.old.part.order.places list.new.part.order.places }
    ensures kept { kept_under list.new.part.results id ≡ Some ended }
    ensures results { IsPermutation ((id, ended) ∷ list.old.part.results.entries) list.new.part.results.entries }
    ensures waiting { list.new.part.waiting ≡ list.old.part.waiting }
    ensures rest { KeepsCrew list.old list.new }
{
    list.remove(deque, running);
    list.part.results.put(id, ended);
}

/// Takes out the thread that waits for a child; None exactly where none does.
pub fn take_waiting(list: &mut ListSlot, child: ThreadId) -> Option<Boxed<Thread>>
    ensures value { result ≡ kept_under list.old.part.waiting child }
    ensures taken { IfSome result (λ parent. TakesWaiting list.old list.new child parent) }
    ensures none { IfNone result (list_shown list.new ≡ list_shown list.old) }
    ensures results { list.new.part.results ≡ list.old.part.results }
    ensures rest { KeepsCrew list.old list.new }
{
    list.part.waiting.take(child)
}

/// Delivers the result of a child to its parent. The words that its Join gives back are then those that the result would release.
pub fn deliver(top: &mut Boxed<Thread>, ended: Ended)
    requires { IsAwaited (label_of top.old) ended (children_of top.old) }
    ensures given { IsGiven ended top.old top.new }
    ensures releases { IsOnlyNewest ended.id (children_of top.old) → join_words_of top.new ≡ released top.old.run.state ended.state }
{
    top.get_mut().deliver(ended);
}
