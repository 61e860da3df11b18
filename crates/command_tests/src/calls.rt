//! Calls of the program over streams in memory.

ghost use Rattle.std.specs.Prelude.{◌≤◌};

use dfd_run::{FreeGate, MemorySink, MemorySource, Status, dfd};
use std::alloc::{AllocError, Global};
use std::process::Abort;
use std::sync::Wait;
use std::thread::Threads;
use std::time::Clock;

/// What a test runs in: it may stop there, start threads and wait for them.
pub trait Host: Abort + Threads + Wait + Clock + Sync {}

impl<R: Abort + Threads + Wait + Clock + Sync> Host for R {}

/// The words of a line.
pub fn words_of(alloc: Global, line: &str) -> Result<Vec<String>, AllocError> {
    let mut all = Vec::new(alloc);
    for word in line.split_whitespace() {
        all.push(String::from_str(alloc, word)?)?;
    }
    Ok(all)
}

/// A text in which a `~` ends a line.
pub fn lines_of(alloc: Global, text: &str) -> Result<Vec<u8>, AllocError> {
    let mut all = Vec::new(alloc);
    for byte in text.bytes() {
        all.push(if byte == b'~' { b'\n' } else { byte })?;
    }
    Ok(all)
}

/// The call at which the source fails, how many bytes the sink takes a call, and the call at which it fails. A 0 is no call.
#[derive(Clone, Copy)]
pub struct Failing {
    pub read: u32,
    pub most: usize,
    pub write: u32,
}

/// Does what words ask for. It hands no clause on, since each goal of its caller would carry it.
fn done(
    rt: &impl Host,
    alloc: Global,
    words: &[String],
    source: &mut MemorySource,
    sink: &mut MemorySink,
) -> Status {
    dfd(rt, alloc, words, source, sink, &FreeGate)
}

/// The status of a call with the words of a line, and the text that it writes. The source passes 10 bytes a call.
pub fn call(
    rt: &impl Host,
    alloc: Global,
    line: &str,
    source: &[u8],
    failing: Failing,
) -> Result<(Status, Vec<u8>), AllocError>
    requires { 1 ≤ failing.most }
{
    let words = words_of(alloc, line)?;
    let reads = vec![in alloc; failing.read]?;
    let mut source = MemorySource::new(Vec::from_slice(alloc, source)?, 10, reads);
    let writes = vec![in alloc; failing.write]?;
    let mut sink = MemorySink::new(alloc, failing.most, writes);
    let status = done(rt, alloc, &words, &mut source, &mut sink);
    Ok((status, Vec::from_slice(alloc, sink.kept())?))
}

/// A call gave what is due. Many assertions are this one, since the proof of each function spells its messages out.
pub fn is_right(rt: &impl Abort, right: bool, line: &str, due: &str) {
    assert!(rt; right, "at {line:?}, due is {due:?}");
}
