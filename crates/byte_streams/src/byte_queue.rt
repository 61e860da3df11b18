ghost use Rattle.std.specs.Prelude.{◌≡◌, ◌++◌, ◌≤◌, length, min, take, vec_len};

/// Bytes in memory that are given one part after another.
#[derive(Drop)]
pub struct ByteQueue {
    bytes: Vec<u8>,
    given: usize,
    pub ghost within: { given ≤ vec_len bytes },
}

impl ByteQueue {
    ghost use Rattle.byte_streams.specs.ByteQueue.{bytes_left};

    /// All of these bytes, from the first to the last.
    pub fn new(bytes: Vec<u8>) -> ByteQueue
        ensures { bytes_left result ≡ bytes.items }
    {
        ByteQueue { bytes, given: 0 }
    }

    /// Puts the next bytes at the front of `buffer`, at most `most` and as many as there are, and answers how many.
    pub fn give(&mut self, most: usize, buffer: &mut [u8]) -> usize
        ensures count { result ≡ min most (min (length buffer.new) (length (bytes_left self.old))) }
        ensures gives { bytes_left self.old ≡ take result buffer.new ++ bytes_left self.new }
    {
        let left = &self.bytes[self.given..];
        let count = most.min(buffer.len()).min(left.len());
        buffer[..count].copy_from_slice(&left[..count]);
        self.given += count;
        count
    }
}
