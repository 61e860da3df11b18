ghost use Rattle.std.specs.Prelude.{◌≡◌, ◌+◌, ◌≤◌, ◌^◌, ◌<◌, min, if◌then◌else◌, true, false};

/// How a stream in memory answers its calls: how many bytes it passes at most, and at which calls it fails.
#[derive(Drop)]
pub struct CallPlan {
    most: usize,
    fail: Vec<u32>,
    calls: u64,
    faults: u64,
    pub ghost passes: { 1 ≤ most },
}

impl CallPlan {
    ghost use Rattle.byte_streams.specs.CallPlan.{fails_next};
    ghost use Rattle.byte_streams.specs.Faults.{raised};

    /// A plan before its first call. The calls are numbered from 1.
    pub fn new(most: usize, fail: Vec<u32>) -> CallPlan
        requires { 1 ≤ most }
        ensures most { result.most ≡ most }
        ensures fail { result.fail ≡ fail }
        ensures calls { result.calls ≡ 0 }
        ensures faults { result.faults ≡ 0 }
    {
        CallPlan {
            most,
            fail,
            calls: 0,
            faults: 0,
        }
    }

    /// How many bytes a call passes at most.
    pub fn most(&self) -> usize
        ensures { result ≡ self.now.most }
    {
        self.most
    }

    /// Counts the next call, and says whether it fails, which is counted too.
    pub fn begin_call(&mut self) -> bool
        ensures fails { result ≡ fails_next self.old }
        ensures calls { self.new.calls ≡ raised self.old.calls }
        ensures faults { self.new.faults ≡ (if result then raised self.old.faults else self.old.faults) }
        ensures most { self.new.most ≡ self.old.most }
        ensures fail { self.new.fail ≡ self.old.fail }
    {
        self.calls = self.calls.saturating_add(1);
        let call = self.calls;
        let fails = self.fail.iter().any(|number| u64::from(*number) == call);
        if fails {
            self.faults = self.faults.saturating_add(1);
        }
        fails
    }
}
