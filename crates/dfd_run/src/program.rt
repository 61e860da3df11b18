ghost use Rattle.std.specs.Prelude.{◌≡◌, ◌≢◌, IfOk, IsOk, IsErr, drop};
ghost use Rattle.std.specs.Vec.Iter.{into_iter_items};
ghost use Rattle.byte_streams.specs.Faults.{Rose};
ghost use Rattle.command_line.specs.Arguments.{arguments_of};
ghost use Rattle.dfd_plays.specs.Answer.{CallGives, Ends};
ghost use Rattle.dfd_plays.specs.Counts.{Counts};
ghost use Rattle.dfd_run.specs.Program.{words_given, LacksWords, AreNoWords};
ghost use Rattle.dfd_plays.specs.Status.{code_of};
ghost use Rattle.dfd_plays.specs.declared.status.Status.{Status as StatusType};

use crate::call::dfd;
use byte_streams::{Sink, Source};
use dfd_plays::Status;
use std::alloc::{AllocError, Global};
use std::env::Args;
use std::io;
use std::sync::Wait;
use std::thread::Threads;
use std::time::Clock;
use work_loop::Gate;

/// The words behind the first one, which is the program's own name.
fn behind_the_name(alloc: Global, mut args: Args) -> Result<Vec<String>, AllocError>
    ensures { IfOk result (λ words. words.items ≡ drop 1 (into_iter_items args)) }
{
    let _name = args.next();
    args.collect(alloc)
}

/// The words of the command line, of what the system gave.
///
/// Words that cannot be read, as one that is not UTF-8, are no command: no words at all stand for them.
fn words(alloc: Global, args: io::Result<Args>) -> Result<Vec<String>, AllocError>
    ensures given { IfOk result (λ words. arguments_of words.items ≡ words_given args) }
    ensures lacking { LacksWords args → IsErr result }
    ensures no_words { AreNoWords args → IsOk result }
{
    match args {
        Ok(args) => behind_the_name(alloc, args),
        Err(error) if error.kind() == io::ErrorKind::OutOfMemory => Err(AllocError),
        Err(_) => Ok(Vec::new(alloc)),
    }
}

/// Does what the program does, and answers its exit code: [`dfd`] with the words that the system gave.
///
/// Words that cannot be read are no command, and want of memory for them is that of the call.
pub fn exit_code<R: Threads + Wait + Clock + Sync, S: Source, W: Sink, G: Gate + Sync>(
    rt: &R,
    alloc: Global,
    args: io::Result<Args>,
    source: &mut S,
    sink: &mut W,
    gate: &G,
) -> u8
    ensures ends { (status : StatusType) × ((result ≡ code_of status) × (
        Ends
        (CallGives (words_given args) (Rose (S.faults source.old) (S.faults source.new)) (S.left source.old) (S.left source.new))
        (W.taken sink.old) (W.taken sink.new) status
        × Counts status (S.faults source.old) (S.faults source.new) (W.faults sink.old) (W.faults sink.new))) }
    ensures no_memory { result ≡ 10 → sink.new ≡ sink.old }
    ensures lacking { LacksWords args → result ≡ 10 }
    ensures no_words { AreNoWords args → (result ≢ 10) × (source.new ≡ source.old) }
{
    let Ok(words) = words(alloc, args) else {
        return Status::OutOfMemory.code();
    };
    dfd(rt, alloc, &words, source, sink, gate).code()
}
