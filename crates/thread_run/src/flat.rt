//! Statements that flat code does, all at once.

ghost use Rattle.std.specs.Prelude.{◌≡◌, ◌≤◌, IfOk, IfSome};
ghost use Rattle.node_table.specs.Codes.{code_shown};
ghost use Rattle.thread_run.specs.Stepping.{KeepsCounts};
ghost use Rattle.thread_run.specs.Ways.{BeginsFlat, GoesOrStays};

use crate::run::ThreadRun;
use std::alloc::AllocError;
use thread_code::{Code, FlatList};

impl ThreadRun {
    ghost use Rattle.thread_run.specs.Functions.{functions_of, frames_of};

    /// Goes on by flat code from the next frame, if that has flat code, up to where this stops: before a statement that the thread does by
    /// itself, at the end of a list that the thread does not leave by itself, or before a fault. Where fewer than `stop` turns are left it
    /// stops before the next round.
    ///
    /// # Errors
    ///
    /// There is not enough memory. The thread has done nothing.
    pub(crate) fn ahead(&mut self, code: &Code, stop: u32) -> Result<(), AllocError>
        requires { stop ≤ self.old.state.turns }
        ensures way { IfOk result (λ _. GoesOrStays (code_shown code.now) self.old self.new) }
        ensures counts { KeepsCounts self.old.state self.new.state }
        ensures functions { IfOk result (λ _. functions_of self.new.func (frames_of self.new)
            ≡ functions_of self.old.func (frames_of self.old)) }
    {
        let Some((list, place, left)) = self.flat_start(code) else {
            return Ok(());
        };
        self.frames.reserve(list.deepest)?;
        let kept = stop.saturating_sub(1);
        let stopped = list.run(&mut self.state.slots, place, self.state.turns - kept)?;
        self.state.turns = stopped.turns + kept;
        self.frames.truncate(left);
        list.push_mark(stopped.place, &mut self.frames);
        Ok(())
    }

    /// Where flat code begins with the next frames: a list of it, a place, and how many frames of the stack are below those of its mark.
    #[inline(always)]
    fn flat_start<'a>(&self, code: &'a Code) -> Option<(&'a FlatList, usize, usize)>
        ensures { IfSome result (λ start. BeginsFlat (code_shown code.now) self.now start.0.now start.1 start.2) }
    {
        if self.state.is_faulted() {
            return None;
        }
        let Some((frame, below)) = self.frames.split_last() else {
            return None;
        };
        let Some((list, place)) = code.start(*frame) else {
            return None;
        };
        if self.state.slots.count() != list.slots as usize {
            return None;
        }
        let Some(left) = list.left_below(place, *frame, below) else {
            return None;
        };
        Some((list, place, left))
    }
}
