ghost use Rattle.std.specs.Prelude.{◌≡◌, ◌≤◌, length};
ghost use Rattle.run_report.specs.Reading.{place_in};
ghost use Rattle.run_report.specs.declared.read_fail.ReadFail.TheVariants.{NotReport};

use crate::read_fail::ReadFail;

/// The refusal of a text at the place of what is left of it.
pub fn not_report(text: &[u8], rest: &[u8]) -> ReadFail
    requires { length rest.now ≤ length text.now }
    ensures { result ≡ NotReport (place_in text.now rest.now) }
{
    let before = text.len() - rest.len();
    let at = if before < u32::MAX as usize {
        before as u32
    } else {
        u32::MAX
    };
    ReadFail::NotReport { at }
}
