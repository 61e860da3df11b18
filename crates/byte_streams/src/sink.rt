ghost use Rattle.std.specs.Prelude.{◌≡◌, ◌≤◌, ◌<◌, ℕ, List, Option, [], take, length, IfOk, MatchResult};
ghost use Rattle.byte_streams.specs.Faults.{Rose};
ghost use Rattle.byte_streams.specs.Sink.{Takes};

/// The sink took nothing this time; its count of faults says so.
#[derive(Clone, Copy, PartialEq, Eq, Debug)]
pub struct SinkFailed;

/// Where a command writes its text.
///
/// Contracts see a sink as `taken`, the bytes that it took so far, where it tells them, and as `faults`, how often
/// it has failed.
pub trait Sink {
    ghost taken: { Self → Option (List ℕ) };

    ghost faults: { Self → ℕ };

    /// Takes the first bytes of a piece, and answers how many: of a piece that is not empty at least one.
    ///
    /// A failed call takes no byte. It counts one fault, and any other call counts none.
    fn push(&mut self, piece: &[u8]) -> Result<usize, SinkFailed>
        ensures fits { IfOk result (λ count. count ≤ length piece.now) }
        ensures goes_on { IfOk result (λ count. 0 < length piece.now → 0 < count) }
        ensures takes { MatchResult result
            (λ count. Takes (taken self.old) (taken self.new) (take count piece.now))
            (λ _. Takes (taken self.old) (taken self.new) []) }
        ensures counted { MatchResult result
            (λ _. faults self.new ≡ faults self.old)
            (λ _. Rose (faults self.old) (faults self.new)) };
}
