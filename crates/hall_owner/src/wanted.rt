//! What the next action of an owner asks for: by its lane, and by the list if it has to see this.

ghost use Rattle.std.specs.Prelude.{◌≡◌, ◌<◌, [], false, length, IsTrue, IsSome, ◌↔◌};
ghost use Rattle.hall_actions.specs.Passed.HallNames.{HallKey, is_there, children_of, label_of, newest, Next as AnyNext, Thread as AnyThread, kept_under};
ghost use Rattle.thread_actions.specs.declared.readiness.Readiness.TheVariants.{Ready};
ghost use Rattle.thread_frames.specs.declared.next.Next.TheVariants as nexts;
ghost use Rattle.hall_owner.specs.Asked.{IsChosen, IsKeptFor, IsWantedOfList};
ghost use Rattle.hall_owner.specs.Ready.{MayWant, Wants};
ghost use Rattle.hall_owner.specs.declared.wanted.ListWanted.TheVariants as listed;

use containers::Boxed;
use dag_order::{Placed, ThreadId};
use hall_actions::{AtNext, ListEvent, WholeEvent};
use hall_slots::ListSlot;
use thread_actions::Readiness;
use thread_frames::{Next, Thread};

/// Why an owner needs the list.
#[derive(Clone, Copy, PartialEq, Eq, Debug)]
pub(crate) enum ListWanted {
    /// The quota is spent.
    GiveUp,
    /// The action is a Dummy.
    Dummy,
    /// It is the Join of a child whose result was not handed over.
    Kept { child: ThreadId },
    /// It is the End of a thread that is alone in its deque.
    End,
}

/// What an owner needs beside its lane.
#[derive(Clone, Copy, PartialEq, Eq, Debug)]
pub(crate) enum Wanted {
    /// Nothing, for the Join of a child whose result was handed over and releases no words.
    Lane { child: ThreadId },
    /// The pool, for an action that uses `charge` words of the quota if it is an Alloc or a Fork.
    Pool { charge: u32 },
    /// The list, and perhaps the pool.
    List(ListWanted),
}

/// The event of an owner that saw the list.
#[derive(Clone, Copy, PartialEq, Eq, Debug)]
pub(crate) enum Chosen {
    /// One that needs no pool.
    Alone(ListEvent),
    /// One that needs the pool too.
    Beside(WholeEvent),
}

/// What a Join asks for whose result was handed over.
fn join_wanted(at: &AtNext, child: ThreadId, charge: u32) -> Wanted
    requires { IsTrue (is_there (newest (children_of at.now.top))) }
    ensures { Wants at.now (nexts.Join child) (Ready charge) result }
{
    if at.top.get().join_releases() > 0 {
        return Wanted::Pool { charge };
    }
    Wanted::Lane { child }
}

/// What an End asks for.
fn end_wanted(at: &AtNext, charge: u32) -> Wanted
    ensures { Wants at.now nexts.End (Ready charge) result }
{
    if at.lane.len() > 0 {
        return Wanted::Pool { charge };
    }
    Wanted::List(ListWanted::End)
}

/// What an action asks for that the period may do.
fn ready_wanted(at: &AtNext, next: Next, charge: u32) -> Wanted
    requires { MayWant at.now next (Ready charge) }
    ensures { Wants at.now next (Ready charge) result }
{
    match next {
        Next::Fork => Wanted::Pool { charge },
        Next::Join { child } => join_wanted(at, child, charge),
        Next::Alloc { words: _words } => Wanted::Pool { charge },
        Next::Release { words: _words } => Wanted::Pool { charge },
        Next::Dummy => Wanted::List(ListWanted::Dummy),
        Next::Fault(_found) => Wanted::Pool { charge },
        Next::End => end_wanted(at, charge),
    }
}

/// What the next action asks for, by what the period says of it.
pub(crate) fn wanted_by(at: &AtNext, next: Next, readiness: Readiness) -> Wanted
    requires { MayWant at.now next readiness }
    ensures { Wants at.now next readiness result }
{
    match readiness {
        Readiness::Ready { charge } => ready_wanted(at, next, charge),
        Readiness::Spent => Wanted::List(ListWanted::GiveUp),
        Readiness::Missing { child } => Wanted::List(ListWanted::Kept { child }),
    }
}

/// Whether the parent of a thread waits for it in the list.
fn is_awaited(list: &Boxed<ListSlot>, top: &Boxed<Thread>) -> bool
    ensures { IsTrue result ↔ IsSome (kept_under list.now.part.waiting (AnyThread.id top.now)) }
{
    list.get().part.waiting.has(top.get().id())
}

/// Whether a thread is the root.
fn is_root(top: &Boxed<Thread>) -> bool
    ensures root { IsTrue result ↔ (label_of top.now ≡ []) }
    ensures forked { result ≡ false → 0 < length (label_of top.now) }
{
    top.get().label().is_empty()
}

/// How many words the thread releases with the result that is kept for a child; None if none is kept.
fn kept_words(list: &Boxed<ListSlot>, top: &Boxed<Thread>, child: ThreadId) -> Option<u64>
    ensures { IsKeptFor list.now top.now child result }
{
    match list.get().part.results.get(child) {
        Some(ended) => Some(top.get().would_release(ended)),
        None => None,
    }
}

/// The event for the Join of a child whose result was not handed over: its result is in the list, or the thread waits.
fn choose_join(at: &AtNext, list: &Boxed<ListSlot>, child: ThreadId) -> Chosen
    ensures { (key : HallKey) (next : AnyNext) → IsWantedOfList key at.now next (listed.Kept child) → IsChosen key list.now at.now next result }
{
    match kept_words(list, &at.top, child) {
        None => Chosen::Alone(ListEvent::Wait { child }),
        Some(0) => Chosen::Alone(ListEvent::Join { child }),
        Some(_) => Chosen::Beside(WholeEvent::Join { child }),
    }
}

/// The event for the End of a thread that is alone in its deque.
fn choose_end(at: &AtNext, list: &Boxed<ListSlot>) -> Chosen
    ensures { (key : HallKey) (next : AnyNext) → IsWantedOfList key at.now next listed.End → IsChosen key list.now at.now next result }
{
    if is_root(&at.top) {
        return Chosen::Alone(ListEvent::RootEnd);
    }
    if is_awaited(list, &at.top) {
        return Chosen::Beside(WholeEvent::Wake);
    }
    Chosen::Beside(WholeEvent::Leave)
}

/// The event of an owner that needs the list, by what is kept there.
pub(crate) fn choose(at: &AtNext, list: &Boxed<ListSlot>, wanted: ListWanted) -> Chosen
    ensures { (key : HallKey) (next : AnyNext) → IsWantedOfList key at.now next wanted → IsChosen key list.now at.now next result }
{
    match wanted {
        ListWanted::GiveUp => Chosen::Alone(ListEvent::GiveUp),
        ListWanted::Dummy => Chosen::Alone(ListEvent::Dummy),
        ListWanted::Kept { child } => choose_join(at, list, child),
        ListWanted::End => choose_end(at, list),
    }
}
