ghost use Rattle.std.specs.Prelude.{◌≡◌, ℕ, ◌<◌, ◌^◌, MatchOption, SomeIff};
ghost use Rattle.std.specs.Str.Parse.{digits_value};
ghost use Rattle.command_line.specs.Arguments.{IsValue, InRange, Gives, TellsGroups};

use crate::command_kind::CommandKind;
use crate::setting::Setting;
use language_limits::MOST_GROUPS;

/// The most digits of a value.
const MAX_DIGITS: usize = 20;

/// The number that a value writes, of 1 to 20 decimal digits. There is no sign.
fn number(value: &[u8]) -> Option<u64>
    ensures { SomeIff result (IsValue value.now × (digits_value 10 value.now < 2 ^ 64)) (digits_value 10 value.now) }
{
    let Ok(text) = str::from_utf8(value) else {
        return None;
    };
    if text.len() > MAX_DIGITS || text.as_bytes().first() == Some(&b'+') {
        return None;
    }
    text.parse::<u64>().ok()
}

/// The number that a value gives to an option of a command, where the option may have it.
pub fn number_for(kind: CommandKind, setting: Setting, value: &[u8]) -> Option<u64>
    ensures { MatchOption result ((n : ℕ) → ¬ Gives kind setting value.now n) (λ n. Gives kind setting value.now n) }
{
    let rule = setting.rule(kind);
    let number = number(value)?;
    if number < rule.least || number > rule.most || number % rule.unit != 0 {
        return None;
    }
    Some(number)
}

/// How many groups a plain argument tells: 1 to 8,000.
pub fn groups_in(argument: &[u8]) -> Option<u32>
    ensures { MatchOption result ((n : ℕ) → ¬ TellsGroups argument.now n) (λ n. TellsGroups argument.now n) }
{
    let number = number(argument)?;
    if number < 1 || number > u64::from(MOST_GROUPS) {
        return None;
    }
    Some(number as u32)
}
