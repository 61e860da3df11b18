use std::alloc::AllocError;

/// Why bytes were not read as a report.
#[derive(Clone, Copy, PartialEq, Eq, Debug)]
pub enum ReadFail {
    /// The bytes are the text of no report.
    NotReport {
        /// The first byte of the first line with which they are none, from 0: the length, where a line is missing. A
        /// last line without LF is such a line. A place behind 4,294,967,295 is told as this number.
        at: u32,
    },
    OutOfMemory,
}

impl From<AllocError> for ReadFail {
    ghost use Rattle.std.specs.Prelude.{◌≡◌};
    ghost use Rattle.run_report.specs.declared.read_fail.ReadFail.TheVariants.{OutOfMemory};

    ghost from_gives = { λ _ fail. fail ≡ OutOfMemory };

    fn from(_error: AllocError) -> ReadFail {
        ReadFail::OutOfMemory
    }
}
