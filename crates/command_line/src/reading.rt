ghost use Rattle.std.specs.Prelude.{◌≡◌, MatchOption, IfSome};
ghost use Rattle.command_line.specs.Arguments.{arguments_of, IsCommand};
ghost use Rattle.command_line.specs.Reading.{AreItems, NoItems, GoesOn, NoneGoesOn};
ghost use Rattle.command_line.specs.declared.command.Command.{Command};

use crate::command::Command;
use crate::command_kind::CommandKind;
use crate::item::next_option;
use crate::numbers::Numbers;
use crate::setting::Setting;
use byte_cuts::behind;

/// The numbers with the item that comes next, and the arguments behind it.
fn read_item(
    kind: CommandKind,
    numbers: Numbers,
    arguments: &[String],
) -> Option<(Numbers, &[String])>
    ensures { MatchOption result (NoneGoesOn kind numbers (arguments_of arguments.now))
        (λ next. GoesOn kind numbers (arguments_of arguments.now) next.0 (arguments_of next.1.now)) }
{
    let (argument, after) = arguments.split_first()?;
    let Some(_) = behind(argument.as_bytes(), b"--") else {
        let more = numbers.more_groups(kind, argument.as_bytes())?;
        return Some((more, after));
    };
    let (setting, value, after) = next_option(arguments)?;
    let more = numbers.more(kind, setting, value)?;
    Some((more, after))
}

/// The numbers that the arguments behind a command give.
fn read_items(kind: CommandKind, arguments: &[String]) -> Option<Numbers>
    ensures { MatchOption result (NoItems kind (arguments_of arguments.now)) (λ numbers. AreItems kind (arguments_of arguments.now) numbers) }
{
    let mut numbers = Numbers::none();
    let mut rest = arguments;
    'items: while !rest.is_empty() {
        let (more, after) = read_item(kind, numbers, rest)?;
        numbers = more;
        rest = after;
    }
    Some(numbers)
}

/// The command that the arguments of a command line are, without the program's own name. None exactly where they are none.
pub fn read_arguments(arguments: &[String]) -> Option<Command>
    ensures exact { MatchOption result ((command : Command)
        → ¬ IsCommand (arguments_of arguments.now) command) (λ command. IsCommand (arguments_of arguments.now) command) }
    ensures only { IfSome result (λ command. (other : Command) → IsCommand (arguments_of arguments.now) other → other ≡ command) }
{
    let (first, rest) = arguments.split_first()?;
    let kind = CommandKind::named(first.as_bytes())?;
    let numbers = read_items(kind, rest)?;
    let groups = numbers.groups_of(kind)?;
    Some(Command {
        kind,
        k: numbers.short_number(kind, Setting::Quota),
        p: numbers.short_number(kind, Setting::Workers),
        arena: numbers.short_number(kind, Setting::Arena),
        steps: numbers.short_number(kind, Setting::Steps),
        deques: numbers.short_number(kind, Setting::Deques),
        seed: numbers.number(kind, Setting::Seed),
        groups,
    })
}
