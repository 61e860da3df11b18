ghost use Rattle.std.specs.Prelude.{◌≡◌, ◌⊎◌};
ghost use Rattle.command_line.specs.Arguments.{arguments_of};
ghost use Rattle.command_line.specs.declared.command_kind.CommandKind.TheVariants.{Run};
ghost use Rattle.dfd_plays.specs.Answer.{CommandGives, CallGives, Ends, HasRanges, IsSomeCommand, NoCommand, ReadsNothing};
ghost use Rattle.dfd_plays.specs.Counts.{Counts};
ghost use Rattle.byte_streams.specs.Faults.{Rose};
ghost use Rattle.dfd_plays.specs.declared.status.Status.TheVariants.{OutOfMemory};

use crate::running::run;
use byte_streams::{ReadFail, Sink, SinkFailed, Source, read_source, write_text};
use command_line::{Command, CommandKind, read_arguments};
use dfd_plays::{Status, USAGE, most_read, serve, write_answer, write_read_fault};
use std::alloc::Global;
use std::sync::Wait;
use std::thread::Threads;
use std::time::Clock;
use work_loop::Gate;

/// Reads the source, runs its program with a thread for each worker, and writes what that comes to.
fn serve_in_threads<R: Threads + Wait + Clock + Sync, S: Source, W: Sink, G: Gate + Sync>(
    rt: &R,
    alloc: Global,
    command: &Command,
    source: &mut S,
    sink: &mut W,
    gate: &G,
) -> Status
    requires ranges { HasRanges command.now }
    requires in_threads { command.now.kind ≡ Run }
    ensures ends { Ends
        (CommandGives command.now (Rose (S.faults source.old) (S.faults source.new)) (S.left source.old) (S.left source.new))
        (W.taken sink.old) (W.taken sink.new) result }
    ensures no_memory { result ≡ OutOfMemory → sink.new ≡ sink.old }
    ensures counts { Counts result (S.faults source.old) (S.faults source.new) (W.faults sink.old) (W.faults sink.new) }
{
    match read_source(alloc, source, most_read(command.kind)) {
        Ok(bytes) => write_answer(run(rt, alloc, command, &bytes, gate), sink),
        Err(ReadFail::Fault) => write_read_fault(sink),
        Err(ReadFail::OutOfMemory) => Status::OutOfMemory,
    }
}

/// Does what the words of the command line ask for, without the program's own name.
///
/// Words that are no command are answered by the usage line, and the source is left unread. `run` takes the runtime's threads, and its
/// workers pass the gate before each try; each other command is done by [`serve`]. A status for a fault comes exactly where a fault was
/// counted.
pub fn dfd<R: Threads + Wait + Clock + Sync, S: Source, W: Sink, G: Gate + Sync>(
    rt: &R,
    alloc: Global,
    words: &[String],
    source: &mut S,
    sink: &mut W,
    gate: &G,
) -> Status
    ensures ends { Ends
        (CallGives (arguments_of words.now) (Rose (S.faults source.old) (S.faults source.new)) (S.left source.old) (S.left source.new))
        (W.taken sink.old) (W.taken sink.new) result }
    ensures no_memory { result ≡ OutOfMemory → IsSomeCommand (arguments_of words.now) × (sink.new ≡ sink.old) }
    ensures unread { NoCommand (arguments_of words.now) ⊎ ReadsNothing (arguments_of words.now) → source.new ≡ source.old }
    ensures counts { Counts result (S.faults source.old) (S.faults source.new) (W.faults sink.old) (W.faults sink.new) }
{
    let Some(command) = read_arguments(words) else {
        return match write_text(sink, USAGE.as_bytes()) {
            Ok(()) => Status::Usage,
            Err(SinkFailed) => Status::WriteFault,
        };
    };
    match command.kind {
        CommandKind::Run => serve_in_threads(rt, alloc, &command, source, sink, gate),
        _ => serve(alloc, &command, source, sink),
    }
}
