ghost use Rattle.std.specs.Prelude.{◌≡◌, ◌∷◌, ◌++◌, MatchOption};
ghost use Rattle.trail_meaning.specs.Ranges.{FitsKind, FitsEvent};
ghost use Rattle.trail_text.specs.TrailText.{kind_words, event_line};
ghost use Rattle.trail_text.specs.Lines.{NoKind, NoEvent};

use crate::numbers::below;
use byte_cuts::behind;
use language_limits::MOST_DEQUES;
use trail_meaning::{TrailEvent, TrailKind};

/// Returns what a worker did, from the rest of an event's line, and the bytes after that line.
fn read_kind(bytes: &[u8]) -> Option<(TrailKind, &[u8])>
    ensures { MatchOption result (NoKind bytes.now)
        (λ next. (bytes.now ≡ kind_words next.0 ++ 10 ∷ next.1.now) × FitsKind next.0) }
{
    if let Some(rest) = behind(bytes, b"act\n") {
        return Some((TrailKind::Act, rest));
    }
    if let Some(rest) = behind(bytes, b"suspend\n") {
        return Some((TrailKind::Suspend, rest));
    }
    if let Some(rest) = behind(bytes, b"giveup\n") {
        return Some((TrailKind::GiveUp, rest));
    }
    let (place, rest) = below(bytes, "steal ", b'\n', MOST_DEQUES)?;
    Some((TrailKind::Steal(place), rest))
}

/// Returns the event of one of `p` workers in the first line of some bytes, and the bytes after that line.
pub fn read_event(bytes: &[u8], p: u32) -> Option<(TrailEvent, &[u8])>
    ensures { MatchOption result (NoEvent p bytes.now)
        (λ next. (bytes.now ≡ event_line next.0 ++ next.1.now) × FitsEvent p next.0) }
{
    let (worker, after) = below(bytes, "", b' ', p)?;
    let (kind, rest) = read_kind(after)?;
    Some((TrailEvent { worker, kind }, rest))
}
