ghost use Rattle.std.specs.Prelude.{◌≡◌, ◌≤◌, ◌++◌, length, map, IfOk, MatchResult};
ghost use Rattle.std.specs.List.{concat};
ghost use Rattle.containers.specs.BoundedList.{entries};
ghost use Rattle.trail_meaning.specs.Shown.{shown_by_trail};
ghost use Rattle.trail_meaning.specs.Ranges.{FitEvents};
ghost use Rattle.trail_text.specs.TrailText.{event_line, IsTrail};
ghost use Rattle.trail_text.specs.Lines.{NoEvent};
ghost use Rattle.trail_text.specs.Reading.{IsFailure};

use crate::ending::read_end;
use crate::event::read_event;
use crate::head::read_head;
use crate::place::not_trail;
use crate::source::read_source;
use crate::trail_fail::TrailFail;
use language_limits::MOST_TRAIL;
use std::alloc::{AllocError, Global};
use trail_meaning::{Events, Trail};

/// Returns the events of `p` workers in the lines that some bytes begin with, and the bytes after these lines.
fn read_events(alloc: Global, bytes: &[u8], p: u32) -> Result<(Events, &[u8]), AllocError>
    ensures spelled { IfOk result (λ read. bytes.now ≡ concat (map event_line (entries read.0)) ++ read.1.now) }
    ensures fit { IfOk result (λ read. FitEvents p (entries read.0)) }
    ensures all { IfOk result (λ read. NoEvent p read.1.now) }
{
    let mut events = Events::new(alloc);
    let mut rest = bytes;
    'events: while let Some((event, after)) = read_event(rest, p) {
        events.reserve()?;
        events.add(event);
        rest = after;
    }
    Ok((events, rest))
}

/// Reads a text that is no longer than a trail may be.
fn read_short(alloc: Global, text: &[u8]) -> Result<Trail, TrailFail>
    requires { length text.now ≤ MOST_TRAIL }
    ensures { MatchResult result
        (λ t. IsTrail text.now (shown_by_trail t))
        (λ fail. IsFailure text.now fail) }
{
    let Some((head, at_source)) = read_head(text) else {
        return Err(not_trail(text, text));
    };
    let Some((source, at_events)) = read_source(at_source) else {
        return Err(not_trail(text, at_source));
    };
    let (events, at_end) = read_events(alloc, at_events, head.p)?;
    let Some((numbers, after)) = read_end(at_end) else {
        return Err(not_trail(text, at_end));
    };
    if !after.is_empty() {
        return Err(not_trail(text, after));
    }
    Ok(Trail {
        k: head.k,
        p: head.p,
        arena: head.arena,
        steps: head.steps,
        deques: head.deques,
        source: Vec::from_slice(alloc, source)?,
        events,
        numbers,
    })
}

/// Returns the trail whose text the bytes are.
///
/// # Errors
///
/// `NotTrail` if the bytes are the text of no trail, at the first line that breaks the form; `OutOfMemory` if there is not enough
/// memory.
pub fn read_trail(alloc: Global, text: &[u8]) -> Result<Trail, TrailFail>
    ensures { MatchResult result
        (λ t. IsTrail text.now (shown_by_trail t))
        (λ fail. IsFailure text.now fail) }
{
    if text.len() > MOST_TRAIL as usize {
        return Err(TrailFail::NotTrail { at: MOST_TRAIL });
    }
    read_short(alloc, text)
}
