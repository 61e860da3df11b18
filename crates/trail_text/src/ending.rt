ghost use Rattle.std.specs.Prelude.{◌≡◌, ◌++◌, MatchOption};
ghost use Rattle.trail_meaning.specs.Ranges.{FitNumbers};
ghost use Rattle.trail_text.specs.TrailText.{end_line};
ghost use Rattle.trail_text.specs.Lines.{NoEnd};

use crate::numbers::number;
use trail_meaning::TrailNumbers;

/// Returns the numbers in the last line of a trail, and the bytes after that line.
pub fn read_end(bytes: &[u8]) -> Option<(TrailNumbers, &[u8])>
    ensures { MatchOption result (NoEnd bytes.now)
        (λ next. (bytes.now ≡ end_line next.0 ++ next.1.now) × FitNumbers next.0) }
{
    let (periods, at_ahead) = number(bytes, "end periods ", b' ')?;
    let (ahead, at_high) = number(at_ahead, "ahead ", b' ')?;
    let (high, after) = number(at_high, "high ", b'\n')?;
    let numbers = TrailNumbers {
        periods,
        ahead,
        high,
    };
    Some((numbers, after))
}
