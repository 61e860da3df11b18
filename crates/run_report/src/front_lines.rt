ghost use Rattle.std.specs.Prelude.{◌≡◌, ◌++◌, ◌<◌, ◌^◌, MatchOption};
ghost use Rattle.std.specs.Fmt.{signed_decimal};
ghost use Rattle.run_report.specs.Lines.{NoValue, NoFinish, NoCounted};
ghost use Rattle.run_report.specs.Shown.{IsWord, HasLine};
ghost use Rattle.run_report.specs.Texts.{line, counted, finish_words};

use crate::finish_reading::read_finish;
use crate::numbers::{natural, signed};
use byte_cuts::{behind, cut_at};
use dag_order::Finish;

/// The number in the first line of some bytes, and the bytes behind that line.
pub fn value_line(bytes: &[u8]) -> Option<(i64, &[u8])>
    ensures { MatchOption result (NoValue bytes.now)
        (λ next. (bytes.now ≡ line (signed_decimal next.0) ++ next.1.now) × IsWord next.0) }
{
    let (front, after) = cut_at(bytes, b'\n')?;
    Some((signed(front)?, after))
}

/// The finish line with which some bytes begin, and the bytes behind it.
pub fn finish_line(bytes: &[u8]) -> Option<(Finish, &[u8])>
    ensures { MatchOption result (NoFinish bytes.now)
        (λ next. (bytes.now ≡ line (finish_words next.0) ++ next.1.now) × HasLine next.0) }
{
    let (front, after) = cut_at(bytes, b'\n')?;
    Some((read_finish(front)?, after))
}

/// The number in the first line of some bytes, which begins with a name, and the bytes behind that line.
pub fn counted_line<'a>(bytes: &'a [u8], name: &str) -> Option<(u64, &'a [u8])>
    ensures { MatchOption result (NoCounted name.now (2 ^ 64) bytes.now)
        (λ next. (bytes.now ≡ line (counted name.now next.0) ++ next.1.now) × (next.0 < 2 ^ 64)) }
{
    let digits = behind(bytes, name.as_bytes())?;
    let (front, after) = cut_at(digits, b'\n')?;
    Some((natural(front)?, after))
}

/// The same for a number of 32 bits.
pub fn small_line<'a>(bytes: &'a [u8], name: &str) -> Option<(u32, &'a [u8])>
    ensures { MatchOption result (NoCounted name.now (2 ^ 32) bytes.now)
        (λ next. (bytes.now ≡ line (counted name.now next.0) ++ next.1.now) × (next.0 < 2 ^ 32)) }
{
    let (number, after) = counted_line(bytes, name)?;
    if number > u64::from(u32::MAX) {
        return None;
    }
    Some((number as u32, after))
}
