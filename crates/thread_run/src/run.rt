ghost use Rattle.std.specs.Prelude.{◌≡◌, ◌<◌, None, Ok, IfOk};
ghost use Rattle.depth_first_list.specs.QuotaWords.{quota_words};
ghost use Rattle.node_table.specs.Codes.{code_shown};
ghost use Rattle.thread_state.specs.States.{words_held};

use crate::Ready;
use depth_first_list::Quota;
use std::alloc::{AllocError, Global};
use thread_code::Code;
use thread_output::Told;
use thread_stack::Frame;
use thread_state::ThreadState;

/// What a thread runs: the function that it is in, its slots, what is left to it, and what it has printed since its newest open fork.
#[derive(Drop)]
pub struct ThreadRun {
    /// The number of the function whose statements come next; None in a thread that runs a tree of dummies.
    pub func: Option<u32>,
    /// Its label, its counts and its slots.
    pub state: ThreadState,
    /// What is left to it, the next one last.
    pub frames: Vec<Frame>,
    /// What it printed since its newest open fork, and its first fault since then.
    pub told: Told,
}

impl ThreadRun {
    ghost use Rattle.thread_run.specs.Going.{IsKnown};
    ghost use Rattle.thread_run.specs.Stepping.{KnownAgain, StepsOn, frames_left};
    ghost use Rattle.thread_run.specs.Functions.{functions_of, frames_of};

    /// Goes on until the next action comes, which the answer names with the memory that it needs, or until fewer than `stop` turns of loops and
    /// calls are left: then the answer is None. The action is not done.
    ///
    /// # Errors
    ///
    /// There is not enough memory. The thread may be in the middle of its way, and is of no further use but to give its blocks back.
    pub fn advance(
        &mut self,
        alloc: Global,
        code: &Code,
        k: Quota,
        stop: u32,
    ) -> Result<Option<Ready>, AllocError>
        requires known { IsKnown (code_shown code.now) (quota_words k) self.old }
        ensures meaning { StepsOn (code_shown code.now) (quota_words k) self.old result self.new }
        ensures known { IfOk result (λ o. KnownAgain (code_shown code.now) (quota_words k) self.new o) }
        ensures stopped { result ≡ Ok None → self.new.state.turns < stop }
        ensures functions { IfOk result (λ o. functions_of self.new.func (frames_left o (frames_of self.new))
            ≡ functions_of self.old.func (frames_of self.old)) }
        ensures label { self.new.state.label ≡ self.old.state.label }
        ensures done { self.new.state.done ≡ self.old.state.done }
        ensures forks { self.new.state.forks ≡ self.old.state.forks }
        ensures faulted { self.new.state.faulted ≡ self.old.state.faulted }
        ensures words { words_held self.new.state ≡ words_held self.old.state }
    {
        'steps: while self.state.turns() >= stop {
            self.ahead(code, stop)?;
            let Some(frame) = self.frames.pop() else {
                return Ok(Some(Ready::End));
            };
            if let Some(ready) = self.go_on(alloc, code, k, frame)? {
                return Ok(Some(ready));
            }
        }
        Ok(None)
    }
}
