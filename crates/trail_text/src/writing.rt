ghost use Rattle.std.specs.Prelude.{◌≡◌, ◌++◌, ◌∷◌, [], OnOk, IfOk, map, length, string_bytes};
ghost use Rattle.std.specs.List.{concat};
ghost use Rattle.containers.specs.BoundedList.{entries};
ghost use Rattle.trail_meaning.specs.Shown.{shown_by_trail};
ghost use Rattle.trail_text.specs.TrailText.{head_line, source_front, event_line, end_line, trail_text};

use std::alloc::{AllocError, Global};
use trail_meaning::{Trail, TrailEvent, TrailKind, TrailNumbers};

/// Writes the first line: the setting of the play.
fn push_head(text: &mut String, t: &Trail) -> Result<(), AllocError>
    ensures { OnOk result (string_bytes text.new ≡ string_bytes text.old ++ head_line t.now.k t.now.p t.now.arena t.now.steps t.now.deques) }
{
    writeln!(
        text,
        "trail k {} p {} arena {} steps {} deques {}",
        t.k, t.p, t.arena, t.steps, t.deques
    )
}

/// Writes the line of one event.
fn push_event(text: &mut String, event: TrailEvent) -> Result<(), AllocError>
    ensures { OnOk result (string_bytes text.new ≡ string_bytes text.old ++ event_line event) }
{
    let worker = event.worker;
    match event.kind {
        TrailKind::Steal(place) => writeln!(text, "{worker} steal {place}"),
        TrailKind::Act => writeln!(text, "{worker} act"),
        TrailKind::Suspend => writeln!(text, "{worker} suspend"),
        TrailKind::GiveUp => writeln!(text, "{worker} giveup"),
    }
}

/// Writes the last line: the numbers that the play ended with.
fn push_end(text: &mut String, numbers: TrailNumbers) -> Result<(), AllocError>
    ensures { OnOk result (string_bytes text.new ≡ string_bytes text.old ++ end_line numbers) }
{
    writeln!(
        text,
        "end periods {} ahead {} high {}",
        numbers.periods, numbers.ahead, numbers.high
    )
}

/// Returns what comes before the bytes of the source.
fn text_before(alloc: Global, t: &Trail) -> Result<String, AllocError>
    ensures { IfOk result (λ text. string_bytes text
        ≡ head_line t.now.k t.now.p t.now.arena t.now.steps t.now.deques ++ source_front (length t.now.source.items)) }
{
    let mut text = String::new(alloc);
    push_head(&mut text, t)?;
    writeln!(text, "source {}", t.source.len())?;
    Ok(text)
}

/// Returns what comes after the bytes of the source.
fn text_after(alloc: Global, t: &Trail) -> Result<String, AllocError>
    ensures { IfOk result (λ text. string_bytes text ≡ 10 ∷ (concat (map event_line (entries t.now.events)) ++ end_line t.now.numbers)) }
{
    let mut text = String::new(alloc);
    writeln!(text, "")?;
    for event in t.events.as_slice() {
        push_event(&mut text, *event)?;
    }
    push_end(&mut text, t.numbers)?;
    Ok(text)
}

/// Returns the text of a trail, whatever its numbers are.
///
/// # Errors
///
/// Fails if there is not enough memory.
pub fn trail_text(alloc: Global, t: &Trail) -> Result<Vec<u8>, AllocError>
    ensures { IfOk result (λ text. text.items ≡ trail_text (shown_by_trail t.now)) }
{
    let mut text = text_before(alloc, t)?.into_bytes();
    text.extend_from_slice(t.source.as_slice())?;
    let after = text_after(alloc, t)?;
    text.extend_from_slice(after.as_bytes())?;
    Ok(text)
}
