//! A lane whose top thread was taken out, before its next action.

ghost use Rattle.std.specs.Prelude.{◌≡◌, ◌≤◌, ◌+◌, ◌∷◌, List as AnyList, Some};
ghost use Rattle.hall_parts.specs.HallNames.{Running as AnyRunning, Thread as AnyThread};

use containers::Boxed;
use deque_list::Lane;
use hall_slots::{LaneSlot, Running};
use thread_frames::Thread;

/// The lane of an owner without its top thread, the period that runs there, and the top thread.
#[derive(Drop)]
pub struct AtNext {
    /// The threads under the top one.
    pub lane: Lane<Boxed<Thread>>,
    pub running: Running,
    pub top: Boxed<Thread>,
}

/// Takes the top thread out of a lane in which a period runs.
pub(crate) fn take_apart(lane: LaneSlot) -> AtNext
    requires threads { (top : AnyThread) × (under : AnyList AnyThread) × (lane.lane.items ≡ top ∷ under) }
    requires runs { (running : AnyRunning) × (lane.running ≡ Some running) }
    ensures items { lane.lane.items ≡ result.top ∷ result.lane.items }
    ensures running { lane.running ≡ Some result.running }
    ensures room { result.lane.spare ≡ lane.lane.spare + 1 }
{
    let LaneSlot { lane, running } = lane;
    let mut lane = lane;
    let Some(running) = running else {
        unreachable!();
    };
    let Some(top) = lane.pop_top() else {
        unreachable!();
    };
    AtNext { lane, running, top }
}

/// Puts the top thread back on its lane.
pub fn put_together(at: AtNext) -> LaneSlot
    requires { 1 ≤ at.lane.spare }
    ensures items { result.lane.items ≡ at.top ∷ at.lane.items }
    ensures running { result.running ≡ Some at.running }
{
    let AtNext { lane, running, top } = at;
    let mut lane = lane;
    lane.push_top(top);
    let running = Some(running);
    LaneSlot { lane, running }
}
