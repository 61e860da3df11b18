ghost use Rattle.std.specs.Prelude.{◌≡◌, ◌≤◌, ◌<◌, ◌↔◌, ◌++◌, [], Some, IsTrue, IsErr, IfOk, MatchResult, length, min, take};
ghost use Rattle.byte_streams.specs.CallPlan.{fails_next};
ghost use Rattle.byte_streams.specs.Faults.{raised, Rose};

use crate::byte_queue::ByteQueue;
use crate::call_plan::CallPlan;
use crate::source::{Source, SourceFailed};

/// A source of bytes in memory that passes few bytes a call and fails at some calls.
#[derive(Drop)]
pub struct MemorySource {
    bytes: ByteQueue,
    plan: CallPlan,
}

impl Source for MemorySource {
    ghost use Rattle.std.specs.Prelude.{Some};
    ghost use Rattle.byte_streams.specs.ByteQueue.{bytes_left};

    ghost left = { λ source. Some (bytes_left source.bytes) };

    ghost faults = { λ source. source.plan.faults };

    fn pull(&mut self, buffer: &mut [u8]) -> Result<usize, SourceFailed>
        ensures fits { IfOk result (λ count. count ≤ length buffer.new) }
        ensures gives { MatchResult result
            (λ count. bytes_left self.old.bytes ≡ take count buffer.new ++ bytes_left self.new.bytes)
            (λ _. bytes_left self.old.bytes ≡ bytes_left self.new.bytes) }
        ensures end { IfOk result (λ count. count ≡ 0 → 0 < length buffer.new → bytes_left self.new.bytes ≡ []) }
        ensures counted { MatchResult result
            (λ _. self.new.plan.faults ≡ self.old.plan.faults)
            (λ _. Rose self.old.plan.faults self.new.plan.faults) }
        ensures fails { IsErr result ↔ IsTrue (fails_next self.old.plan) }
        ensures count { IfOk result (λ count. count ≡ min self.old.plan.most
            (min (length buffer.new) (length (bytes_left self.old.bytes)))) }
        ensures calls { self.new.plan.calls ≡ raised self.old.plan.calls }
        ensures plan { (self.new.plan.most ≡ self.old.plan.most) × (self.new.plan.fail ≡ self.old.plan.fail) }
    {
        if self.plan.begin_call() {
            return Err(SourceFailed);
        }
        Ok(self.bytes.give(self.plan.most(), buffer))
    }
}

impl MemorySource {
    /// A source of these bytes that passes at most `most` of them a call and fails at the calls numbered in `fail`,
    /// from 1.
    pub fn new(bytes: Vec<u8>, most: usize, fail: Vec<u32>) -> MemorySource
        requires { 1 ≤ most }
        ensures left { ⟦<MemorySource as Source>⟧.left result ≡ Some bytes.items }
        ensures faults { ⟦<MemorySource as Source>⟧.faults result ≡ 0 }
        ensures plan { (result.plan.most ≡ most) × (result.plan.fail ≡ fail) × (result.plan.calls ≡ 0) }
    {
        MemorySource {
            bytes: ByteQueue::new(bytes),
            plan: CallPlan::new(most, fail),
        }
    }
}
