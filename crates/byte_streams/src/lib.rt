//! The traits of a source and a sink of bytes, the real streams, and streams in memory for tests.
//!
//! Contracts know a stream by two ghost members. A [`Source`] tells the bytes still to come and a [`Sink`] those that it
//! took, where they tell them at all; and both have a count of their faults, so that a failed call has a cause that its
//! caller sees. [`CleanSource`] and [`CleanSink`] never fail, [`MemorySource`] and [`MemorySink`] fail at calls that a
//! list names. [`ReaderSource`] and [`WriterSink`] are any reader and any writer of the standard library, and
//! [`StdinSource`] and [`StdoutSink`] are these over the real streams, which tell nothing of content.
//!
//! The layer stands on no other. Its one theorem: [`read_source`] gives what the source had to give, up to its end or
//! to the most bytes that are asked for, and [`write_text`] puts the whole text into the sink, or a front of it where the sink fails. Each
//! tells a fault exactly where one was counted in the call. Want of memory, which the reading may answer at any time, comes
//! without a fault.
//!
//! # Why
//!
//! - A source that shows its bytes shows them from then on. A sink may stop showing its bytes, and never begins to. So what is said of a source
//!   depends on what it showed before, and what is said of a sink depends on what it shows after.
//! - A call of a stream that fails counts one fault, and any other call counts none. A count that is 2^64 - 1, the end of its type, goes no
//!   further. So the counts say whether a reading or a writing met a fault, and that it ended at the first one.
//! - **The real streams are one line each**, over adapters of any reader and any writer of the standard library. A contract can say nothing of
//!   what a terminal gives, but it can of every reader. So the code of the real streams is proved where bytes can be named.
//! - What a reader still has is what its source shows. A writer may begin to show what it holds, and a sink may not. So `WriterSink` shows
//!   nothing as a sink, and a clause of its own says how the writer's contents grow.
//! - The reading asks for 1,048,577 bytes in all at most: near the end it asks for fewer than its buffer holds. What was read before a failed
//!   call is lost.
//! - `MemorySource` and `MemorySink` pass at least one byte a call: it is a condition that their greatest number of bytes is not 0.
//! - `MemorySink` takes no memory before its first piece. If there is not enough memory for a piece it takes the piece, keeps no more and shows
//!   nothing from then on, as `CleanSink` does beyond its room. So what it keeps is a first part of what it took, without a gap.
//! - A write to the standard output that takes nothing of a piece counts as an error.
//! - The reading takes one byte more than a text may have, so that a source that is too long is refused as `TooLong` and not cut.
#![tactic(auto)]

mod byte_queue;
mod call_plan;
mod clean_sink;
mod clean_source;
mod kept;
mod memory_sink;
mod memory_source;
mod read_fail;
mod reader_source;
mod reading;
mod sink;
mod source;
mod standard;
mod writer_sink;
mod writing;

pub use clean_sink::CleanSink;
pub use clean_source::CleanSource;
pub use memory_sink::MemorySink;
pub use memory_source::MemorySource;
pub use read_fail::ReadFail;
pub use reader_source::ReaderSource;
pub use reading::read_source;
pub use sink::{Sink, SinkFailed};
pub use source::{Source, SourceFailed};
pub use standard::{StdinSource, StdoutSink};
pub use writer_sink::WriterSink;
pub use writing::write_text;
