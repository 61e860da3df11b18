//! The whole call over any source and any sink, and the command `run`.
//!
//! [`dfd`] takes the words of the command line, reads its program from a [`Source`] (`make` writes its own, by `made_source`)
//! and writes its text to a [`Sink`]. The kinds and contracts of both are those of `byte_streams`.
//!
//! It uses `command_line`, which says which words are a command; `dfd_plays`, which does each command but `run`, by [`serve`], and says what
//! each is to answer; and `hall_threads`, by which workers run a program in threads.
//!
//! Its theorem is the contract of `dfd`: the status and the text that the sink took are those that `CallGives` of `specs/Answer.antt` of
//! `dfd_plays` gives for the words and the bytes read, and each fault has its cause. What follows from these definitions, of answers, plays
//! and trails, is in `dfd_laws`.
#![tactic(auto)]

mod call;
mod program;
mod running;

pub use byte_streams::{
    CleanSink, CleanSource, MemorySink, MemorySource, ReadFail, ReaderSource, Sink, SinkFailed,
    Source, SourceFailed, StdinSource, StdoutSink, WriterSink, read_source, write_text,
};
pub use call::dfd;
pub use command_line::{Command, CommandKind, read_arguments};
pub use dfd_plays::{PcgChoices, Status, serve};
pub use program::exit_code;
pub use work_loop::{FreeGate, Gate};
