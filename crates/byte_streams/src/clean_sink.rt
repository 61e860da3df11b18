ghost use Rattle.std.specs.Prelude.{◌≡◌, ℕ, ◌≤◌, ◌<◌, [], Some, Ok, IfSome, IfOk, MatchResult, length, take, vec_capacity};
ghost use Rattle.byte_streams.specs.Faults.{Rose};
ghost use Rattle.byte_streams.specs.Kept.{told, told_after};
ghost use Rattle.byte_streams.specs.Sink.{Takes};

use crate::kept::Kept;
use crate::sink::{Sink, SinkFailed};
use std::alloc::{AllocError, Global};

/// A sink into memory that never fails and takes each piece whole.
///
/// It keeps what it takes as long as there is room; beyond its room it keeps no more and tells nothing.
#[derive(Drop)]
pub struct CleanSink {
    kept: Kept,
    room: usize,
    pub ghost has_room: { room ≤ vec_capacity kept.bytes },
}

impl Sink for CleanSink {
    ghost use Rattle.byte_streams.specs.Kept.{told};

    ghost taken = { λ sink. told sink.kept };

    ghost faults = { λ _. 0 };

    fn push(&mut self, piece: &[u8]) -> Result<usize, SinkFailed>
        ensures fits { IfOk result (λ count. count ≤ length piece.now) }
        ensures goes_on { IfOk result (λ count. 0 < length piece.now → 0 < count) }
        ensures takes { MatchResult result
            (λ count. Takes (told self.old.kept) (told self.new.kept) (take count piece.now))
            (λ _. Takes (told self.old.kept) (told self.new.kept) []) }
        ensures counted { MatchResult result (λ _. ◌≡◌ {A = ℕ} 0 0) (λ _. Rose 0 0) }
        ensures whole { result ≡ Ok (length piece.now) }
        ensures told { told self.new.kept ≡ told_after self.old.room (told self.old.kept) piece.now }
        ensures room { self.new.room ≡ self.old.room }
    {
        let kept = self.kept.bytes().len();
        if piece.len() <= self.room && kept <= self.room - piece.len() {
            self.kept.keep(piece);
        } else {
            self.kept.stop();
        }
        Ok(piece.len())
    }
}

impl CleanSink {
    /// An empty sink with room for so many bytes.
    pub fn new(alloc: Global, room: usize) -> Result<CleanSink, AllocError>
        ensures taken { IfOk result (λ sink. ⟦<CleanSink as Sink>⟧.taken sink ≡ Some []) }
        ensures room { IfOk result (λ sink. sink.room ≡ room) }
    {
        Ok(CleanSink {
            kept: Kept::with_room(alloc, room)?,
            room,
        })
    }

    /// The bytes that the sink took and kept.
    pub fn kept(&self) -> &[u8]
        ensures { IfSome (⟦<CleanSink as Sink>⟧.taken self.now) (λ taken. result.now ≡ taken) }
    {
        self.kept.bytes()
    }
}
