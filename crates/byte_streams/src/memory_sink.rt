ghost use Rattle.std.specs.Prelude.{◌≡◌, ◌≤◌, ◌<◌, ◌↔◌, ◌++◌, [], Some, IsTrue, IsErr, IfSome, IfOk, MatchResult, length, min, take};
ghost use Rattle.byte_streams.specs.CallPlan.{fails_next};
ghost use Rattle.byte_streams.specs.Faults.{raised, Rose};
ghost use Rattle.byte_streams.specs.Kept.{told, KeepsPiece};
ghost use Rattle.byte_streams.specs.Sink.{Takes};

use crate::call_plan::CallPlan;
use crate::kept::Kept;
use crate::sink::{Sink, SinkFailed};
use std::alloc::Global;

/// A sink into memory that takes few bytes a call and fails at some calls.
///
/// It keeps what it takes as long as there is memory for it; from then on it keeps no more and tells nothing.
#[derive(Drop)]
pub struct MemorySink {
    kept: Kept,
    plan: CallPlan,
}

impl Sink for MemorySink {
    ghost use Rattle.byte_streams.specs.Kept.{told};

    ghost taken = { λ sink. told sink.kept };

    ghost faults = { λ sink. sink.plan.faults };

    fn push(&mut self, piece: &[u8]) -> Result<usize, SinkFailed>
        ensures fits { IfOk result (λ count. count ≤ length piece.now) }
        ensures goes_on { IfOk result (λ count. 0 < length piece.now → 0 < count) }
        ensures takes { MatchResult result
            (λ count. Takes (told self.old.kept) (told self.new.kept) (take count piece.now))
            (λ _. Takes (told self.old.kept) (told self.new.kept) []) }
        ensures counted { MatchResult result
            (λ _. self.new.plan.faults ≡ self.old.plan.faults)
            (λ _. Rose self.old.plan.faults self.new.plan.faults) }
        ensures fails { IsErr result ↔ IsTrue (fails_next self.old.plan) }
        ensures count { IfOk result (λ count. count ≡ min self.old.plan.most (length piece.now)) }
        ensures keeps { MatchResult result
            (λ count. KeepsPiece self.old.kept self.new.kept (take count piece.now))
            (λ _. self.new.kept ≡ self.old.kept) }
        ensures calls { self.new.plan.calls ≡ raised self.old.plan.calls }
        ensures plan { (self.new.plan.most ≡ self.old.plan.most) × (self.new.plan.fail ≡ self.old.plan.fail) }
    {
        if self.plan.begin_call() {
            return Err(SinkFailed);
        }
        let count = self.plan.most().min(piece.len());
        self.kept.keep(&piece[..count]);
        Ok(count)
    }
}

impl MemorySink {
    /// An empty sink that takes at most `most` bytes a call and fails at the calls numbered in `fail`, from 1.
    pub fn new(alloc: Global, most: usize, fail: Vec<u32>) -> MemorySink
        requires { 1 ≤ most }
        ensures taken { ⟦<MemorySink as Sink>⟧.taken result ≡ Some [] }
        ensures faults { ⟦<MemorySink as Sink>⟧.faults result ≡ 0 }
        ensures plan { (result.plan.most ≡ most) × (result.plan.fail ≡ fail) × (result.plan.calls ≡ 0) }
    {
        MemorySink {
            kept: Kept::new(alloc),
            plan: CallPlan::new(most, fail),
        }
    }

    /// The bytes that the sink took and kept: all that it took, or a front of it.
    pub fn kept(&self) -> &[u8]
        ensures told { IfSome (⟦<MemorySink as Sink>⟧.taken self.now) (λ taken. result.now ≡ taken) }
        ensures kept { result.now ≡ self.now.kept.bytes.items }
    {
        self.kept.bytes()
    }
}
