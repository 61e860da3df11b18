ghost use Rattle.std.specs.Prelude.{◌≡◌, ◌≤◌, ◌++◌, length, MatchOption};
ghost use Rattle.trail_text.specs.TrailText.{source_line};
ghost use Rattle.trail_text.specs.Lines.{NoSource};

use crate::numbers::within;
use language_limits::LONGEST_TEXT;

/// Returns the bytes of the source in the second line of a trail, and the bytes after that line.
pub fn read_source(bytes: &[u8]) -> Option<(&[u8], &[u8])>
    ensures { MatchOption result (NoSource bytes.now)
        (λ next. (bytes.now ≡ source_line next.0.now ++ next.1.now) × (length next.0.now ≤ LONGEST_TEXT)) }
{
    let (count, rest) = within(bytes, "source ", b'\n', 0, LONGEST_TEXT)?;
    let len = count as usize;
    if rest.len() <= len {
        return None;
    }
    if rest[len] != b'\n' {
        return None;
    }
    Some((&rest[..len], &rest[len + 1..]))
}
