//! Streams in memory, whose answers are worked out by hand.
ghost use Rattle.std.specs.Prelude.{◌≤◌, IfOk};

use byte_streams::{
    MemorySink, MemorySource, ReadFail, ReaderSource, Sink, SinkFailed, Source, SourceFailed,
    WriterSink, read_source, write_text,
};
use std::alloc::{AllocError, Global};
use std::io::{ErrorKind, Read, Write};
use std::process::Abort;

/// A source is read to its end and has these bytes, or to a fault where none are given.
fn is_read(rt: &impl Abort, alloc: Global, source: &mut impl Source, want: Option<&str>) {
    let is_so = match (read_source(alloc, source, 1_048_577), want) {
        (Ok(bytes), Some(want)) => bytes.as_slice() == want.as_bytes(),
        (Err(why), None) => why == ReadFail::Fault,
        _ => false,
    };
    assert!(rt; is_so);
}

/// A source of seven bytes passes three a call. A reading ends at its first fault, and the next one begins after the calls before it.
#[test]
fn sources_fail_at_their_calls(rt: HostRuntime) -> Result<(), AllocError> {
    let table: [(u32, Option<&str>, Option<&str>); 5] = [
        (1, None, Some("abcdefg")),
        (2, None, Some("defg")),
        (3, None, Some("g")),
        (4, None, Some("")),
        (5, Some("abcdefg"), None),
    ];
    for (call, first, second) in table {
        let bytes = Vec::from_slice(rt.alloc(), b"abcdefg")?;
        let calls = vec![in rt.alloc(); call]?;
        let mut source = MemorySource::new(bytes, 3, calls);
        is_read(&rt, rt.alloc(), &mut source, first);
        is_read(&rt, rt.alloc(), &mut source, second);
    }
    Ok(())
}

/// A text is written whole, or not.
fn is_written(rt: &impl Abort, sink: &mut impl Sink, text: &str, want: bool) {
    assert!(rt; write_text(sink, text.as_bytes()).is_ok() == want);
}

/// A sink takes three bytes a call. A writing ends at its first fault, and the next one goes after what was taken.
#[test]
fn sinks_fail_at_their_calls(rt: HostRuntime) -> Result<(), AllocError> {
    for (call, kept) in [(1, "xy"), (2, "abcxy"), (3, "abcdefxy"), (4, "abcdefg")] {
        let calls = vec![in rt.alloc(); call]?;
        let mut sink = MemorySink::new(rt.alloc(), 3, calls);
        is_written(&rt, &mut sink, "abcdefg", call == 4);
        is_written(&rt, &mut sink, "xy", call != 4);
        assert!(rt; sink.kept() == kept.as_bytes(), "{call}");
    }
    Ok(())
}

/// A reader and a writer that give and take one byte, then fail, and then are at their end.
#[derive(Drop)]
struct Failing {
    calls: u8,
}

impl Failing {
    fn answer(&mut self, most: usize) -> std::io::Result<usize>
        ensures { IfOk result (λ count. count ≤ most) }
    {
        self.calls = self.calls.saturating_add(1);
        match self.calls {
            1 => Ok(most.min(1)),
            2 => Err(std::io::Error::from(ErrorKind::Other)),
            _ => Ok(0),
        }
    }
}

impl Read for Failing {
    fn read(&mut self, buf: &mut [u8]) -> std::io::Result<usize> {
        self.answer(buf.len())
    }
}

impl Write for Failing {
    fn write(&mut self, buf: &[u8]) -> std::io::Result<usize> {
        self.answer(buf.len())
    }

    fn flush(&mut self) -> std::io::Result<()> {
        Ok(())
    }
}

#[test]
fn errors_of_readers_are_faults(rt: HostRuntime) {
    let mut buffer = [0; 4];
    let mut source = ReaderSource::new(Failing { calls: 0 });
    let told = [
        source.pull(&mut buffer),
        source.pull(&mut buffer),
        source.pull(&mut buffer),
    ];
    assert!(rt; told == [Ok(1), Err(SourceFailed), Ok(0)]);
}

/// The last write takes nothing.
#[test]
fn errors_of_writers_are_faults(rt: HostRuntime) {
    let mut sink = WriterSink::new(Failing { calls: 0 });
    let told = [sink.push(b"ab"), sink.push(b"b"), sink.push(b"b")];
    assert!(rt; told == [Ok(1), Err(SinkFailed), Err(SinkFailed)]);
}
