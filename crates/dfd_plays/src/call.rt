ghost use Rattle.std.specs.Prelude.{◌≡◌, ◌≢◌, ◌≤◌, ℕ, List, Option, IfOk};
ghost use Rattle.command_line.specs.declared.command.Command.{Command as AnyCommand};
ghost use Rattle.command_line.specs.declared.command_kind.CommandKind.TheVariants.{Make, Run};
ghost use Rattle.dfd_plays.specs.Answer.{BytesGive, ReadGives, CommandGives, Ends, HasRanges};
ghost use Rattle.dfd_plays.specs.Counts.{Counts};
ghost use Rattle.dfd_plays.specs.Make.{source_of};
ghost use Rattle.byte_streams.specs.Faults.{Rose};
ghost use Rattle.dfd_plays.specs.declared.status.Status.TheVariants.{OutOfMemory};

use crate::answer::Answer;
use crate::kinds::{answer_to, most_read};
use crate::messages::READ_FAULT;
use crate::status::Status;
use byte_streams::{ReadFail, Sink, SinkFailed, Source, read_source, write_text};
use command_line::{Command, CommandKind};
use language_limits::MOST_GROUPS;
use made_source::made_source;
use std::alloc::{AllocError, Global};

/// Writes what a command made of bytes. Where there was no memory for that, nothing is written.
pub fn write_answer<W: Sink>(made: Result<Answer, AllocError>, sink: &mut W) -> Status
    ensures ends { (command : AnyCommand) (bytes : List ℕ) → IfOk made (λ answer. BytesGive command bytes answer.status answer.text.items)
        → Ends (BytesGive command bytes) (W.taken sink.old) (W.taken sink.new) result }
    ensures no_memory { (command : AnyCommand) (bytes : List ℕ) → IfOk made (λ answer. BytesGive command bytes answer.status answer.text.items)
        → result ≡ OutOfMemory → sink.new ≡ sink.old }
    ensures counts { (command : AnyCommand) (bytes : List ℕ) → IfOk made (λ answer. BytesGive command bytes answer.status answer.text.items)
        → (reads : ℕ) → Counts result reads reads (W.faults sink.old) (W.faults sink.new) }
{
    let Ok(answer) = made else {
        return Status::OutOfMemory;
    };
    match write_text(sink, &answer.text) {
        Ok(()) => answer.status,
        Err(SinkFailed) => Status::WriteFault,
    }
}

/// Writes that the source failed.
pub fn write_read_fault<W: Sink>(sink: &mut W) -> Status
    ensures ends { (command : AnyCommand) (reads later : ℕ) (left rest : Option (List ℕ)) → Rose reads later
        → Ends (ReadGives command (Rose reads later) left rest) (W.taken sink.old) (W.taken sink.new) result }
    ensures memory { result ≢ OutOfMemory }
    ensures counts { (reads later : ℕ) → Rose reads later → Counts result reads later (W.faults sink.old) (W.faults sink.new) }
{
    match write_text(sink, READ_FAULT.as_bytes()) {
        Ok(()) => Status::ReadFault,
        Err(SinkFailed) => Status::WriteFault,
    }
}

/// Does the command with a made source, and writes what it makes of it.
fn serve_made<W: Sink>(alloc: Global, command: &Command, sink: &mut W) -> Status
    requires ranges { HasRanges command.now }
    requires groups { (1 ≤ command.now.groups) × (command.now.groups ≤ MOST_GROUPS) }
    requires alone { command.now.kind ≢ Run }
    ensures ends { Ends (BytesGive command.now (source_of command.now)) (W.taken sink.old) (W.taken sink.new) result }
    ensures no_memory { result ≡ OutOfMemory → sink.new ≡ sink.old }
    ensures counts { (reads : ℕ) → Counts result reads reads (W.faults sink.old) (W.faults sink.new) }
{
    let Ok(bytes) = made_source(alloc, command.groups) else {
        return Status::OutOfMemory;
    };
    write_answer(answer_to(alloc, command, &bytes), sink)
}

/// Reads the source, does the command with its bytes, and writes what it makes of them.
fn serve_read<S: Source, W: Sink>(
    alloc: Global,
    command: &Command,
    source: &mut S,
    sink: &mut W,
) -> Status
    requires ranges { HasRanges command.now }
    requires alone { command.now.kind ≢ Run }
    ensures ends { Ends
        (ReadGives command.now (Rose (S.faults source.old) (S.faults source.new)) (S.left source.old) (S.left source.new))
        (W.taken sink.old) (W.taken sink.new) result }
    ensures no_memory { result ≡ OutOfMemory → sink.new ≡ sink.old }
    ensures counts { Counts result (S.faults source.old) (S.faults source.new) (W.faults sink.old) (W.faults sink.new) }
{
    match read_source(alloc, source, most_read(command.kind)) {
        Ok(bytes) => write_answer(answer_to(alloc, command, &bytes), sink),
        Err(ReadFail::Fault) => write_read_fault(sink),
        Err(ReadFail::OutOfMemory) => Status::OutOfMemory,
    }
}

/// Does what the program does for words that are this command, which is not `run`. It starts no thread and waits for nobody.
///
/// The order is: the reading, the program, its run, the writing. The text is made whole before its first byte is
/// written. A fault of the source is told without memory, so want of memory never stands for it. `make` reads nothing.
pub fn serve<S: Source, W: Sink>(
    alloc: Global,
    command: &Command,
    source: &mut S,
    sink: &mut W,
) -> Status
    requires ranges { HasRanges command.now }
    requires alone { command.now.kind ≢ Run }
    ensures ends { Ends
        (CommandGives command.now (Rose (S.faults source.old) (S.faults source.new)) (S.left source.old) (S.left source.new))
        (W.taken sink.old) (W.taken sink.new) result }
    ensures no_memory { result ≡ OutOfMemory → sink.new ≡ sink.old }
    ensures unread { command.now.kind ≡ Make → source.new ≡ source.old }
    ensures counts { Counts result (S.faults source.old) (S.faults source.new) (W.faults sink.old) (W.faults sink.new) }
{
    match command.kind {
        CommandKind::Make => serve_made(alloc, command, sink),
        _ => serve_read(alloc, command, source, sink),
    }
}
