use crate::source::{Source, SourceFailed};
use std::io::Read;

/// A reader of the standard library as a source: it gives what the reader gives, and counts each error.
///
/// It tells the bytes still to come where the reader tells them.
#[derive(Drop)]
pub struct ReaderSource<R: Drop> {
    reader: R,
    faults: u64,
}

impl<R: Read + Drop> Source for ReaderSource<R> {
    ghost left = { λ source. R.remaining source.reader };

    ghost faults = { λ source. source.faults };

    fn pull(&mut self, buffer: &mut [u8]) -> Result<usize, SourceFailed> {
        match self.reader.read(buffer) {
            Ok(count) => Ok(count),
            Err(_) => {
                self.faults = self.faults.saturating_add(1);
                Err(SourceFailed)
            }
        }
    }
}

impl<R: Read + Drop> ReaderSource<R> {
    ghost use Rattle.std.specs.Prelude.{◌≡◌};

    /// The reader, before its first error.
    pub fn new(reader: R) -> ReaderSource<R>
        ensures left { ⟦<ReaderSource<R> as Source>⟧.left result ≡ R.remaining reader }
        ensures faults { ⟦<ReaderSource<R> as Source>⟧.faults result ≡ 0 }
    {
        ReaderSource { reader, faults: 0 }
    }
}
