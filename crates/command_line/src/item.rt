ghost use Rattle.std.specs.Prelude.{◌≡◌, ◌++◌, List, ℕ, Bool, MatchOption};
ghost use Rattle.command_line.specs.Arguments.{arguments_of};
ghost use Rattle.command_line.specs.Reading.{NoOption, IsNext};

use crate::setting::Setting;
use byte_cuts::{behind, cut_at};

/// The option with which some arguments begin, its value, and the arguments behind.
pub fn next_option(arguments: &[String]) -> Option<(Setting, &[u8], &[String])>
    ensures { MatchOption result (NoOption (arguments_of arguments.now))
        (λ next. IsNext (arguments_of arguments.now) next.0 next.1.now (arguments_of next.2.now)) }
{
    let (argument, after) = arguments.split_first()?;
    let body = behind(argument.as_bytes(), b"--")?;
    if let Some((name, value)) = cut_at(body, b'=') {
        return Some((Setting::named(name)?, value, after));
    }
    let setting = Setting::named(body)?;
    let (value, after) = after.split_first()?;
    Some((setting, value.as_bytes(), after))
}
