ghost use Rattle.std.specs.Prelude.{◌≡◌, ◌≤◌, List as AnyList, None, MatchResult};
ghost use Rattle.containers.specs.BoundedList.{entries, spare};
ghost use Rattle.depth_first_run.specs.States.{Setting};
ghost use Rattle.deque_machine.specs.Moments.{Moment};
ghost use Rattle.deque_machine.specs.Runs.{Pair};
ghost use Rattle.dfd_core.specs.Cores.{IsAt, SameSetting, end_of, terms_at};
ghost use Rattle.trail_record.specs.Turns.{event_recorded, with_event, IsVictimOf, RecordsTurn};
ghost use Rattle.trail_record.specs.Recorded.{KeepsEnd, PlaysRecorded, PlaysInPart};

use crate::recorded::Recorded;
use containers::BoundedList;
use dfd_core::{Choices, Core, Stepped, draw_turn, most_turns};
use std::alloc::{AllocError, Global};
use trail_meaning::{Events, TrailEvent, TrailKind};

/// The place of the deque that a worker robs by the word that it drew; None for the owner of a deque, who drew none.
fn victim_of(core: &Core, word: Option<u64>) -> Option<u32>
    ensures { (c : Setting) (run : AnyList Pair) (m : Moment) → IsAt c core.now run m → IsVictimOf c core.now m word result }
{
    core.victim(word?)
}

/// What a worker did in a step, as a trail tells it; None where there was no event. A thief robbed the deque at the place `victim`.
fn event_recorded(worker: u32, stepped: Stepped, victim: Option<u32>) -> Option<TrailEvent>
    ensures { result ≡ event_recorded worker stepped victim }
{
    let kind = match stepped {
        Stepped::Stole {
            deque: _,
            period: _,
        } => TrailKind::Steal(victim?),
        Stepped::Acted(_) => TrailKind::Act,
        Stepped::Suspended(_) => TrailKind::Suspend,
        Stepped::GaveUp(_) => TrailKind::GiveUp,
        Stepped::Nothing => return None,
        Stepped::Over(_) => return None,
    };
    Some(TrailEvent { worker, kind })
}

/// Lets the worker move whose turn it is, in a run that has not ended. The answer is its event; None where it met a stop.
fn record_turn<C: Choices>(core: &mut Core, choices: &mut C) -> Option<TrailEvent>
    requires { end_of core.old ≡ None }
    ensures turn { RecordsTurn (C.coming choices.old) (C.coming choices.new) core.old core.new result }
    ensures setting { SameSetting core.old core.new }
{
    let turn = draw_turn(core, choices);
    let victim = victim_of(core, turn.word);
    let stepped = core.step(turn.worker, turn.word.unwrap_or(0));
    event_recorded(turn.worker, stepped, victim)
}

/// Puts an event at the end of the record, if there is one. It takes no memory.
fn note(events: &mut Events, event: Option<TrailEvent>)
    requires { 1 ≤ spare events.old }
    ensures { entries events.new ≡ with_event (entries events.old) event }
{
    match event {
        Some(event) => events.add(event),
        None => {}
    }
}

/// Lets the workers run to the end, in the order that the words pick, and records what they do. A run that has ended stays as it is, draws
/// no word and has no event.
///
/// # Errors
///
/// There is not enough memory for the record. The core is at a moment of the front of the play, and the words come that the front did not
/// draw.
pub fn record_play<C: Choices>(
    alloc: Global,
    core: &mut Core,
    choices: &mut C,
) -> Result<Recorded, AllocError>
    ensures kept { KeepsEnd core.old core.new choices.old choices.new result }
    ensures played { end_of core.old ≡ None → (c : Setting) (run : AnyList Pair) (m : Moment) → IsAt c core.old run m → MatchResult result
        (λ r. PlaysRecorded c (terms_at core.old) (C.coming choices.old) (C.coming choices.new) core.new run m r.end (entries r.events))
        (λ _. PlaysInPart c (terms_at core.old) (C.coming choices.old) (C.coming choices.new) core.new run m) }
    ensures end { MatchResult result (λ r. end_of core.new ≡ Some r.end) (λ _. end_of core.new ≡ None) }
    ensures setting { SameSetting core.old core.new }
{
    let mut events = BoundedList::new(alloc);
    if let Some(end) = core.end() {
        return Ok(Recorded { end, events });
    }
    for _ in 0..most_turns(core) {
        events.reserve()?;
        note(&mut events, record_turn(core, choices));
        if let Some(end) = core.end() {
            return Ok(Recorded { end, events });
        }
    }
    unreachable!()
}
