ghost use Rattle.std.specs.Prelude.{◌≡◌, MatchOption};
ghost use Rattle.command_line.specs.Arguments.{kind_name, has, most_steps, wants_groups};
ghost use Rattle.command_line.specs.declared.command_kind.CommandKind.{CommandKind};

use crate::setting::Setting;
use language_limits::{MOST_ACTIONS, MOST_TRAIL_ACTIONS};

/// What a command does.
#[derive(Clone, Copy, PartialEq, Eq, Debug)]
pub enum CommandKind {
    /// `play`: a program is run by the scheduler, one event after the other.
    Play,
    /// `async`: a program is run by the scheduler with one ready list, one event after the other.
    Async,
    /// `run`: a program is run by the scheduler with a thread for each worker.
    Run,
    /// `peak`: a program is run depth-first.
    Peak,
    /// `check`: a program is checked, and its text is written in one layout.
    Check,
    /// `make`: a made source is run by the scheduler, and what it came to is written in numbers.
    Make,
    /// `loops`: parallel loops are written out, and the program is run as by `play`.
    Loops,
    /// `expand`: parallel loops are written out, and the text is written.
    Expand,
    /// `trail`: a program is run as by `play`, and what the workers did is written, event by event.
    Trail,
    /// `verify`: a trail is checked.
    Verify,
}

impl CommandKind {
    /// The kind that an argument names.
    pub fn named(argument: &[u8]) -> Option<CommandKind>
        ensures { MatchOption result ((kind : CommandKind) → ¬ (argument.now ≡ kind_name kind)) (λ kind. argument.now ≡ kind_name kind) }
    {
        if argument == b"play".as_slice() {
            Some(CommandKind::Play)
        } else if argument == b"async".as_slice() {
            Some(CommandKind::Async)
        } else if argument == b"run".as_slice() {
            Some(CommandKind::Run)
        } else if argument == b"peak".as_slice() {
            Some(CommandKind::Peak)
        } else if argument == b"check".as_slice() {
            Some(CommandKind::Check)
        } else if argument == b"make".as_slice() {
            Some(CommandKind::Make)
        } else if argument == b"loops".as_slice() {
            Some(CommandKind::Loops)
        } else if argument == b"expand".as_slice() {
            Some(CommandKind::Expand)
        } else if argument == b"trail".as_slice() {
            Some(CommandKind::Trail)
        } else if argument == b"verify".as_slice() {
            Some(CommandKind::Verify)
        } else {
            None
        }
    }

    /// Whether the command has the option.
    pub fn has(self, setting: Setting) -> bool
        ensures { result ≡ has self setting }
    {
        match self {
            CommandKind::Play
            | CommandKind::Run
            | CommandKind::Make
            | CommandKind::Loops
            | CommandKind::Trail => true,
            CommandKind::Async => !matches!(setting, Setting::Deques),
            CommandKind::Peak => matches!(setting, Setting::Quota | Setting::Steps),
            CommandKind::Check | CommandKind::Expand | CommandKind::Verify => false,
        }
    }

    /// The most actions that the command allows a run.
    pub fn most_steps(self) -> u32
        ensures { result ≡ most_steps self }
    {
        match self {
            CommandKind::Trail => MOST_TRAIL_ACTIONS,
            _ => MOST_ACTIONS,
        }
    }

    /// Whether the command wants a plain argument, its number of groups.
    pub fn wants_groups(self) -> bool
        ensures { result ≡ wants_groups self }
    {
        matches!(self, CommandKind::Make)
    }
}
