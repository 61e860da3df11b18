ghost use Rattle.std.specs.Prelude.{◌≡◌, ◌≤◌, ◌<◌, vec_len};
ghost use Rattle.language_limits.specs.declared.TheConstants.{MOST_CALLS};

use dag_order::Label;
use slot_store::Slots;

/// What a thread has beside what is left to it: its label, its counts, and the rows of slots of its open calls.
///
/// It counts the actions and the forks that the thread has done, the calls that are open, those at the forks above it among them, and the
/// loop rounds and calls that it may still have.
#[derive(Drop)]
pub struct ThreadState {
    pub(crate) label: Label,
    pub(crate) done: u32,
    pub(crate) forks: u32,
    pub(crate) faulted: bool,
    /// The row of the function that runs.
    pub slots: Slots,
    pub(crate) callers: Vec<Slots>,
    pub(crate) calls: u32,
    /// How many turns of loops and calls are left to it.
    pub turns: u32,
    pub ghost counted: { forks ≤ done },
    pub ghost waiting: { vec_len callers < calls },
    pub ghost few: { calls ≤ MOST_CALLS },
}

impl ThreadState {
    /// The label of the thread.
    pub fn label(&self) -> &Label
        ensures { result.now ≡ self.now.label }
    {
        &self.label
    }

    /// How many actions the thread has done.
    pub fn done(&self) -> u32
        ensures { result ≡ self.now.done }
    {
        self.done
    }

    /// How many turns of loops and calls are left to the thread before it meets the limit.
    pub fn turns(&self) -> u32
        ensures { result ≡ self.now.turns }
    {
        self.turns
    }

    /// How many forks the thread has done.
    pub fn forks(&self) -> u32
        ensures value { result ≡ self.now.forks }
        ensures counted { self.now.forks ≤ self.now.done }
    {
        self.forks
    }

    /// Whether a fault ended the work of the thread.
    pub fn is_faulted(&self) -> bool
        ensures { result ≡ self.now.faulted }
    {
        self.faulted
    }
}
