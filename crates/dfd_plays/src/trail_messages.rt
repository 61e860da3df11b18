//! The texts that say what became of a trail.

ghost use Rattle.std.specs.Prelude.{◌≡◌, IfOk};
ghost use Rattle.dfd_plays.specs.TrailMessages.{not_trail_text, long_run_text, bad_event_text, not_ended_text, wrong_numbers_text, trail_ok_text};

use std::alloc::{AllocError, Global};
use trail_meaning::TrailNumbers;

/// The line of bytes that are no trail: the place of the line that shows it.
pub fn not_trail_text(alloc: Global, at: u32) -> Result<Vec<u8>, AllocError>
    ensures { IfOk result (λ text. text.items ≡ not_trail_text at) }
{
    let line = format!(in alloc; "trail NotTrail at {at}\n")?;
    Ok(line.into_bytes())
}

/// The line of a trail whose source has a longer depth-first run than the trail allows.
pub fn long_run_text(alloc: Global, limit: u32) -> Result<Vec<u8>, AllocError>
    ensures { IfOk result (λ text. text.items ≡ long_run_text limit) }
{
    let line = format!(in alloc; "trail LongRun limit {limit}\n")?;
    Ok(line.into_bytes())
}

/// The line of a trail with an event, from 1, that the machine does not allow.
pub fn bad_event_text(alloc: Global, event: u32) -> Result<Vec<u8>, AllocError>
    ensures { IfOk result (λ text. text.items ≡ bad_event_text event) }
{
    let line = format!(in alloc; "trail BadEvent event {event}\n")?;
    Ok(line.into_bytes())
}

/// The line of a trail after whose events, which are so many, the root has not ended.
pub fn not_ended_text(alloc: Global, events: u32) -> Result<Vec<u8>, AllocError>
    ensures { IfOk result (λ text. text.items ≡ not_ended_text events) }
{
    let line = format!(in alloc; "trail NotEnded events {events}\n")?;
    Ok(line.into_bytes())
}

/// The line of a trail whose numbers are wrong: the right ones.
pub fn wrong_numbers_text(alloc: Global, numbers: TrailNumbers) -> Result<Vec<u8>, AllocError>
    ensures { IfOk result (λ text. text.items ≡ wrong_numbers_text numbers) }
{
    let line = format!(in alloc;
        "trail WrongNumbers periods {} ahead {} high {}\n",
        numbers.periods, numbers.ahead, numbers.high
    )?;
    Ok(line.into_bytes())
}

/// The text of an accepted trail: its numbers, and how many actions were done.
pub fn trail_ok_text(
    alloc: Global,
    numbers: TrailNumbers,
    actions: u32,
) -> Result<Vec<u8>, AllocError>
    ensures { IfOk result (λ text. text.items ≡ trail_ok_text numbers actions) }
{
    let text = format!(in alloc;
        "trail ok\nperiods {}\nahead {}\nhigh {}\nactions {actions}\n",
        numbers.periods, numbers.ahead, numbers.high
    )?;
    Ok(text.into_bytes())
}
