ghost use Rattle.std.specs.Prelude.{◌≡◌, ◌≤◌, ◌<◌, [], None, IfOk, MatchResult, length, take};
ghost use Rattle.std.specs.Io.KnownBytes.{Appends, Keeps};
ghost use Rattle.byte_streams.specs.Faults.{Rose};
ghost use Rattle.byte_streams.specs.Sink.{Takes};

use crate::sink::{Sink, SinkFailed};
use std::io::Write;

/// A writer of the standard library as a sink: it takes what the writer takes, and counts each error.
///
/// A write that takes nothing of a piece that is not empty is an error too. What the writer holds grows by just what the
/// sink took, where the writer tells it. The sink itself tells nothing: a writer may tell late, and a sink may not.
#[derive(Drop)]
pub struct WriterSink<W: Drop> {
    writer: W,
    faults: u64,
}

impl<W: Write + Drop> Sink for WriterSink<W> {
    ghost use Rattle.std.specs.Prelude.{None};

    ghost taken = { λ _. None };

    ghost faults = { λ sink. sink.faults };

    fn push(&mut self, piece: &[u8]) -> Result<usize, SinkFailed>
        ensures fits { IfOk result (λ count. count ≤ length piece.now) }
        ensures goes_on { IfOk result (λ count. 0 < length piece.now → 0 < count) }
        ensures takes { MatchResult result (λ count. Takes None None (take count piece.now)) (λ _. Takes None None []) }
        ensures counted { MatchResult result
            (λ _. self.new.faults ≡ self.old.faults)
            (λ _. Rose self.old.faults self.new.faults) }
        ensures writes { MatchResult result
            (λ count. Appends (W.contents self.old.writer) (W.contents self.new.writer) (take count piece.now))
            (λ _. Keeps (W.contents self.old.writer) (W.contents self.new.writer)) }
    {
        match self.writer.write(piece) {
            Ok(count) if count > 0 || piece.is_empty() => Ok(count),
            _ => {
                self.faults = self.faults.saturating_add(1);
                Err(SinkFailed)
            }
        }
    }
}

impl<W: Write + Drop> WriterSink<W> {
    ghost use Rattle.std.specs.Prelude.{◌≡◌};

    /// The writer, before its first error.
    pub fn new(writer: W) -> WriterSink<W>
        ensures writer { result.writer ≡ writer }
        ensures faults { ⟦<WriterSink<W> as Sink>⟧.faults result ≡ 0 }
    {
        WriterSink { writer, faults: 0 }
    }
}
