ghost use Rattle.std.specs.Prelude.{◌≡◌, ◌≢◌, IfOk};
ghost use Rattle.command_line.specs.declared.command_kind.CommandKind.TheVariants.{Run};
ghost use Rattle.dfd_plays.specs.Answer.{BytesGive, HasRanges, most_read};

use crate::answer::Answer;
use crate::checking::check;
use crate::expanding::{expand, loops};
use crate::making::make;
use crate::peaking::peak;
use crate::playing::play;
use crate::ready_playing::play_ready;
use crate::trailing::trail;
use crate::verifying::verify;
use command_line::{Command, CommandKind};
use language_limits::{LONGEST_TEXT, MOST_TRAIL};
use std::alloc::{AllocError, Global};

/// How many bytes a command reads at most: one more than a text, or a trail, may have.
pub fn most_read(kind: CommandKind) -> usize
    ensures { result ≡ most_read kind }
{
    match kind {
        CommandKind::Verify => MOST_TRAIL as usize + 1,
        _ => LONGEST_TEXT as usize + 1,
    }
}

/// What a command other than `run` makes of the bytes of a source.
pub fn answer_to(alloc: Global, command: &Command, bytes: &[u8]) -> Result<Answer, AllocError>
    requires ranges { HasRanges command.now }
    requires alone { command.now.kind ≢ Run }
    ensures { IfOk result (λ answer. BytesGive command.now bytes.now answer.status answer.text.items) }
{
    match command.kind {
        CommandKind::Play => play(alloc, command, bytes),
        CommandKind::Async => play_ready(alloc, command, bytes),
        CommandKind::Run => unreachable!(),
        CommandKind::Peak => peak(alloc, command.k, command.steps, bytes),
        CommandKind::Check => check(alloc, bytes),
        CommandKind::Make => make(alloc, command, bytes),
        CommandKind::Loops => loops(alloc, command, bytes),
        CommandKind::Expand => expand(alloc, bytes),
        CommandKind::Trail => trail(alloc, command, bytes),
        CommandKind::Verify => verify(alloc, bytes),
    }
}
