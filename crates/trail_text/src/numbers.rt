ghost use Rattle.std.specs.Prelude.{◌≡◌, ◌<◌, ◌^◌, MatchOption};
ghost use Rattle.trail_meaning.specs.Ranges.{IsWithin};
ghost use Rattle.trail_text.specs.Lines.{number_then, NoNumber, NoneWithin, NoneBelow};

use byte_cuts::{behind, cut_at};
use run_report::natural;

/// Returns the number between a name and the byte `stop`, and the bytes after that.
pub fn number<'a>(bytes: &'a [u8], name: &str, stop: u8) -> Option<(u64, &'a [u8])>
    requires { stop < 48 }
    ensures { MatchOption result (NoNumber name.now stop bytes.now)
        (λ next. (bytes.now ≡ number_then name.now next.0 stop next.1.now) × (next.0 < 2 ^ 64)) }
{
    let after = behind(bytes, name.as_bytes())?;
    let (digits, rest) = cut_at(after, stop)?;
    Some((natural(digits)?, rest))
}

/// The same for a number from `least` to `most`.
pub fn within<'a>(
    bytes: &'a [u8],
    name: &str,
    stop: u8,
    least: u32,
    most: u32,
) -> Option<(u32, &'a [u8])>
    requires { stop < 48 }
    ensures { MatchOption result (NoneWithin name.now stop least most bytes.now)
        (λ next. (bytes.now ≡ number_then name.now next.0 stop next.1.now) × IsWithin least most next.0) }
{
    let (value, rest) = number(bytes, name, stop)?;
    if value < u64::from(least) {
        return None;
    }
    if value > u64::from(most) {
        return None;
    }
    Some((value as u32, rest))
}

/// The same for a number below `bound`.
pub fn below<'a>(bytes: &'a [u8], name: &str, stop: u8, bound: u32) -> Option<(u32, &'a [u8])>
    requires { stop < 48 }
    ensures { MatchOption result (NoneBelow name.now stop bound bytes.now)
        (λ next. (bytes.now ≡ number_then name.now next.0 stop next.1.now) × (next.0 < bound)) }
{
    let (value, rest) = number(bytes, name, stop)?;
    if value >= u64::from(bound) {
        return None;
    }
    Some((value as u32, rest))
}
