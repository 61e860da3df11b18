ghost use Rattle.std.specs.Prelude.{◌≡◌, ◌≤◌, ◌-◌, length};
ghost use Rattle.language_limits.specs.declared.TheConstants.{MOST_TRAIL};
ghost use Rattle.trail_text.specs.declared.trail_fail.TrailFail.TheVariants.{NotTrail};

use crate::trail_fail::TrailFail;

/// Returns the refusal of a text at the place where `rest`, its end, begins.
pub fn not_trail(text: &[u8], rest: &[u8]) -> TrailFail
    requires within { length rest.now ≤ length text.now }
    requires short { length text.now ≤ MOST_TRAIL }
    ensures { result ≡ NotTrail (length text.now - length rest.now) }
{
    TrailFail::NotTrail {
        at: (text.len() - rest.len()) as u32,
    }
}
