ghost use Rattle.std.specs.Prelude.{◌≡◌, Some};

use crate::byte_queue::ByteQueue;
use crate::source::{Source, SourceFailed};

/// A source of bytes in memory that never fails.
#[derive(Drop)]
pub struct CleanSource {
    bytes: ByteQueue,
}

impl Source for CleanSource {
    ghost use Rattle.std.specs.Prelude.{Some};
    ghost use Rattle.byte_streams.specs.ByteQueue.{bytes_left};

    ghost left = { λ source. Some (bytes_left source.bytes) };

    ghost faults = { λ _. 0 };

    fn pull(&mut self, buffer: &mut [u8]) -> Result<usize, SourceFailed> {
        Ok(self.bytes.give(usize::MAX, buffer))
    }
}

impl CleanSource {
    /// A source of these bytes.
    pub fn new(bytes: Vec<u8>) -> CleanSource
        ensures { ⟦<CleanSource as Source>⟧.left result ≡ Some bytes.items }
    {
        CleanSource {
            bytes: ByteQueue::new(bytes),
        }
    }
}
