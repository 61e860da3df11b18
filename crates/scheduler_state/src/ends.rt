//! How a run ends with its root.

ghost use Rattle.std.specs.Prelude.{◌≡◌, ◌↔◌, Some, IsTrue};
ghost use Rattle.dag_order.specs.Births.{root};
ghost use Rattle.dag_order.specs.declared.finish.Finish.{Finish as AnyFinish};
ghost use Rattle.thread_map.specs.Kept.{kept_under};
ghost use Rattle.scheduler_state.specs.Ends.{is_of_root, end_behind_event, end_without_memory};
ghost use Rattle.thread_frames.specs.Roots.{end_of_root};
ghost use Rattle.thread_points.specs.Passed.Run.{finish_of};

use crate::event::Event;
use dag_order::{FaultAt, Finish, ThreadId};
use play_rules::{RunEnd, Stop};
use thread_frames::Ended;
use thread_map::ThreadMap;

/// How a run with this first fault finishes.
fn finish_with(fault: Option<FaultAt>) -> Finish
    ensures { result ≡ finish_of fault }
{
    match fault {
        None => Finish::Done,
        Some(at) => Finish::Faulted(at),
    }
}

/// The end that the result of the root tells; None exactly where it is not kept.
fn end_told(results: &ThreadMap<Ended>) -> Option<RunEnd>
    ensures { result ≡ end_of_root (kept_under results.now root) }
{
    match results.get(ThreadId::ROOT) {
        None => None,
        Some(ended) => Some(RunEnd::Finished(finish_with(ended.fault()))),
    }
}

/// Whether an event is an action of the root.
fn is_of_root(event: Event) -> bool
    ensures { result ≡ is_of_root event }
{
    match event {
        Event::Acted(id) => id.by == ThreadId::ROOT,
        _ => false,
    }
}

/// The end that is kept behind an event. The root ends by an action of its own, so the results are searched behind these alone.
pub fn end_behind(results: &ThreadMap<Ended>, event: Event) -> Option<RunEnd>
    ensures { result ≡ end_behind_event event (kept_under results.now root) }
{
    if is_of_root(event) {
        end_told(results)
    } else {
        None
    }
}

/// The end of a run that found no memory: a kept end is never replaced.
pub fn end_without_memory(kept: Option<RunEnd>) -> RunEnd
    ensures { Some result ≡ end_without_memory kept }
{
    match kept {
        Some(end) => end,
        None => RunEnd::Stopped(Stop::OutOfMemory),
    }
}

/// Whether a run that ended so came to the end of its root.
pub fn is_finish(end: RunEnd) -> bool
    ensures { IsTrue result ↔ ((finish : AnyFinish) × (end ≡ RunEnd.Finished finish)) }
{
    match end {
        RunEnd::Finished(_) => true,
        RunEnd::Stopped(_) => false,
    }
}
