ghost use Rattle.std.specs.Prelude.{◌≡◌, ◌≤◌, ◌<◌, ℕ, List, Option, [], take, length, IfOk, MatchResult};
ghost use Rattle.byte_streams.specs.Faults.{Rose};
ghost use Rattle.byte_streams.specs.Source.{Gives, IsSpent};

/// The source could not be read this time; its count of faults says so.
#[derive(Clone, Copy, PartialEq, Eq, Debug)]
pub struct SourceFailed;

/// Where a command reads its program from.
///
/// Contracts see a source as `left`, the bytes still to come, where it tells them, and as `faults`, how often it
/// has failed.
pub trait Source {
    ghost left: { Self → Option (List ℕ) };

    ghost faults: { Self → ℕ };

    /// Puts the next bytes at the front of `buffer`, and answers how many. Of a buffer that is not empty, 0 is the
    /// end of the source.
    ///
    /// A failed call gives no byte. It counts one fault, and any other call counts none.
    fn pull(&mut self, buffer: &mut [u8]) -> Result<usize, SourceFailed>
        ensures fits { IfOk result (λ count. count ≤ length buffer.new) }
        ensures gives { MatchResult result
            (λ count. Gives (left self.old) (left self.new) (take count buffer.new))
            (λ _. Gives (left self.old) (left self.new) []) }
        ensures end { IfOk result (λ count. count ≡ 0 → 0 < length buffer.new → IsSpent (left self.new)) }
        ensures counted { MatchResult result
            (λ _. faults self.new ≡ faults self.old)
            (λ _. Rose (faults self.old) (faults self.new)) };
}
