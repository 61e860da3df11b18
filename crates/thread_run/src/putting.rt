//! What a step puts before what is left, and what it prints.

ghost use Rattle.std.specs.Prelude.{◌≡◌, ◌<◌, ◌≤◌, ◌++◌, ◌∷◌, [], List, None, OnOk, IfOk};
ghost use Rattle.thread_state.specs.Passed.States.{Item, printed};
ghost use Rattle.thread_stack.specs.Frames.{frames_shown};
ghost use Rattle.thread_output.specs.Telling.{Tells};
ghost use Rattle.thread_run.specs.Stepping.{frames_with, ready_of, told_by};

use crate::run::ThreadRun;
use crate::{Done, Ready};
use std::alloc::AllocError;
use thread_stack::{Frame, ListOf};

impl ThreadRun {
    ghost use Rattle.thread_run.specs.Functions.{frames_of};

    /// The statements of a list from a place on come before what is left, where the list, which has `len`, has any there.
    ///
    /// # Errors
    ///
    /// There is not enough memory. Nothing is changed.
    pub(crate) fn put_rest(
        &mut self,
        list: ListOf,
        next: usize,
        len: usize,
    ) -> Result<(), AllocError>
        ensures some { next < len → OnOk result (frames_of self.new ≡ Frame.Statements list next ∷ frames_of self.old) }
        ensures none { len ≤ next → OnOk result (frames_of self.new ≡ frames_of self.old) }
        ensures func { self.new.func ≡ self.old.func }
        ensures state { self.new.state ≡ self.old.state }
        ensures told { self.new.told ≡ self.old.told }
    {
        if next < len {
            self.frames.push(Frame::Statements { list, next })?;
        }
        Ok(())
    }

    /// One frame more before what is left, or none.
    ///
    /// # Errors
    ///
    /// There is not enough memory. Nothing is changed.
    fn put(&mut self, frame: Option<Frame>) -> Result<(), AllocError>
        ensures frames { OnOk result (frames_of self.new ≡ frames_shown frame ++ frames_of self.old) }
        ensures func { self.new.func ≡ self.old.func }
        ensures state { self.new.state ≡ self.old.state }
        ensures told { self.new.told ≡ self.old.told }
    {
        if let Some(frame) = frame {
            self.frames.push(frame)?;
        }
        Ok(())
    }

    /// A number is printed. Behind a fault nothing is told.
    ///
    /// # Errors
    ///
    /// There is not enough memory. Nothing is changed.
    fn tell(&mut self, value: i64) -> Result<(), AllocError>
        ensures told { (part : List Item) → Tells self.old.told part → OnOk result (Tells self.new.told (part ++ printed value ∷ [])) }
        ensures func { self.new.func ≡ self.old.func }
        ensures state { self.new.state ≡ self.old.state }
        ensures frames { frames_of self.new ≡ frames_of self.old }
    {
        if self.told.fault().is_some() {
            return Ok(());
        }
        match self.told.print(value) {
            Ok(()) => Ok(()),
            Err(error) => Err(error),
        }
    }

    /// What a statement comes to is put before what is left, or told; an action is the answer.
    ///
    /// # Errors
    ///
    /// There is not enough memory.
    pub(crate) fn follow(&mut self, done: Done) -> Result<Option<Ready>, AllocError>
        ensures answer { IfOk result (λ o. o ≡ ready_of done) }
        ensures frames { OnOk result (frames_of self.new ≡ frames_with done (frames_of self.old)) }
        ensures told { (part : List Item) → Tells self.old.told part → OnOk result (Tells self.new.told (part ++ told_by done)) }
        ensures func { self.new.func ≡ self.old.func }
        ensures state { self.new.state ≡ self.old.state }
    {
        match done {
            Done::Silent { first, next } => self.put_both(first, next),
            Done::Prints(value) => {
                self.tell(value)?;
                Ok(None)
            }
            Done::Acts(ready) => Ok(Some(ready)),
        }
    }

    /// Two frames before what is left, `first` and then `next`.
    ///
    /// # Errors
    ///
    /// There is not enough memory.
    fn put_both(
        &mut self,
        first: Option<Frame>,
        next: Option<Frame>,
    ) -> Result<Option<Ready>, AllocError>
        ensures answer { IfOk result (λ o. o ≡ None) }
        ensures frames { OnOk result (frames_of self.new ≡ frames_shown first ++ (frames_shown next ++ frames_of self.old)) }
        ensures func { self.new.func ≡ self.old.func }
        ensures state { self.new.state ≡ self.old.state }
        ensures told { self.new.told ≡ self.old.told }
    {
        self.put(next)?;
        self.put(first)?;
        Ok(None)
    }
}
