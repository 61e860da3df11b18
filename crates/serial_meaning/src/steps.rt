//! One action of a run after another.

ghost use Rattle.std.specs.Prelude.{◌≡◌, ◌<◌, ◌+◌, ℕ, Some, IfOk, OnOk};
ghost use Rattle.language_limits.specs.declared.TheConstants.{GREATEST_COUNT};
ghost use Rattle.depth_first_list.specs.QuotaWords.{quota_words};
ghost use Rattle.depth_first_run.specs.States.{Setting};
ghost use Rattle.node_table.specs.Codes.{code_shown};
ghost use Rattle.node_table.specs.Table.{Table};
ghost use Rattle.thread_frames.specs.Passed.Settings.{IsSettingOf};
ghost use Rattle.thread_frames.specs.Actions.{IsOfTheList, JoinsNewest};
ghost use Rattle.thread_frames.specs.Views.{children_of, next_of};
ghost use Rattle.serial_meaning.specs.Doing.{DoesAlone};
ghost use Rattle.serial_meaning.specs.Stacks.{Stand};
ghost use Rattle.serial_meaning.specs.Writing.{Write, GoesOrEnds, WritesOrEnds, NeverSpent};

use crate::alone::do_alone;
use crate::naming::{kind_of, name_of};
use crate::run::Run;
use block_arena::{Pool, PoolError};
use containers::Boxed;
use depth_first_list::Quota;
use language_limits::PIECE_WORDS;
use serial_journal::{Journal, SerialStop};
use std::alloc::{AllocError, Global};
use thread_frames::{Code, Ended, Next, Thread};

impl Run {
    /// The root before its first action, with an empty journal.
    ///
    /// # Errors
    ///
    /// There is not enough memory.
    pub(crate) fn begin(alloc: Global, code: &Code, limit: u32) -> Result<Run, AllocError>
        ensures stand { (k : ℕ) → IfOk result (Stand (code_shown code.now) k) }
        ensures write { (k : ℕ) (c : Setting) → IsSettingOf (code_shown code.now) k c → IfOk result (Write c limit) }
    {
        let root = Thread::root(alloc, code)?;
        let pool = first_pool(alloc)?;
        let top = Boxed::new(alloc, root)?;
        Ok(Run {
            top,
            parents: Vec::new(alloc),
            pool,
            journal: Journal::new(alloc, limit),
            done: 0,
            used: Vec::new(alloc),
        })
    }

    /// Does the next action. The answer is the result of the root where this was its End.
    ///
    /// # Errors
    ///
    /// There is not enough memory.
    pub(crate) fn act(
        &mut self,
        alloc: Global,
        code: &Code,
        k: Quota,
    ) -> Result<Option<Ended>, SerialStop>
        requires stand { Stand (code_shown code.now) (quota_words k) self.old }
        requires count { self.old.done < GREATEST_COUNT }
        ensures stand { IfOk result (GoesOrEnds (code_shown code.now) (quota_words k) self.new) }
        ensures write { (limit : ℕ) (c : Setting) → IsSettingOf (code_shown code.now) (quota_words k) c → Write c limit self.old
            → self.old.done < limit → IfOk result (WritesOrEnds c limit self.new) }
        ensures never { (limit : ℕ) (c : Setting) → IsSettingOf (code_shown code.now) (quota_words k) c → Write c limit self.old
            → self.old.done < limit → NeverSpent result }
        ensures done { OnOk result (self.new.done ≡ self.old.done + 1) }
    {
        let next = self.go_on(alloc, code, k)?;
        self.do_next(alloc, next)
    }

    /// Runs the top thread up to its next action, which is not done.
    ///
    /// # Errors
    ///
    /// There is not enough memory.
    fn go_on(&mut self, alloc: Global, code: &Code, k: Quota) -> Result<Next, AllocError>
        requires stand { Stand (code_shown code.now) (quota_words k) self.old }
        requires count { self.old.done < GREATEST_COUNT }
        ensures stand { OnOk result (Stand (code_shown code.now) (quota_words k) self.new) }
        ensures write { (limit : ℕ) (c : Setting) → Write c limit self.old → OnOk result (Write c limit self.new) }
        ensures next { IfOk result (λ next. next_of self.new.top ≡ Some next) }
        ensures newest { IfOk result (λ next. JoinsNewest next (children_of self.new.top)) }
        ensures list { (c : Setting) → IsSettingOf (code_shown code.now) (quota_words k) c
            → IfOk result (λ next. ∥ IsOfTheList c self.new.top next ∥₁) }
        ensures done { self.new.done ≡ self.old.done }
    {
        self.top.get_mut().advance(alloc, code, k)
    }

    /// Does the action to which the top thread has come.
    ///
    /// # Errors
    ///
    /// There is not enough memory.
    fn do_next(&mut self, alloc: Global, next: Next) -> Result<Option<Ended>, SerialStop>
        requires stand { (t : Table) × (k : ℕ) × Stand t k self.old }
        requires count { self.old.done < GREATEST_COUNT }
        requires next { next_of self.old.top ≡ Some next }
        requires newest { JoinsNewest next (children_of self.old.top) }
        ensures stand { (t : Table) (k : ℕ) → Stand t k self.old → IfOk result (GoesOrEnds t k self.new) }
        ensures write { (limit : ℕ) (t : Table) (k : ℕ) (c : Setting) → IsSettingOf t k c → Stand t k self.old → ∥ IsOfTheList c self.old.top next ∥₁ → Write c limit self.old
            → self.old.done < limit → IfOk result (WritesOrEnds c limit self.new) }
        ensures never { (limit : ℕ) (t : Table) (k : ℕ) (c : Setting) → Stand t k self.old → Write c limit self.old → self.old.done < limit → NeverSpent result }
        ensures done { OnOk result (self.new.done ≡ self.old.done + 1) }
    {
        match next {
            Next::Fork => self.fork(alloc),
            Next::End => self.end(),
            next => self.act_alone(alloc, next),
        }
    }

    /// Does an action that is neither a Fork nor an End.
    ///
    /// # Errors
    ///
    /// There is not enough memory.
    fn act_alone(&mut self, alloc: Global, next: Next) -> Result<Option<Ended>, SerialStop>
        requires stand { (t : Table) × (k : ℕ) × Stand t k self.old }
        requires count { self.old.done < GREATEST_COUNT }
        requires next { next_of self.old.top ≡ Some next }
        requires newest { JoinsNewest next (children_of self.old.top) }
        requires alone { DoesAlone next }
        ensures stand { (t : Table) (k : ℕ) → Stand t k self.old → IfOk result (GoesOrEnds t k self.new) }
        ensures write { (limit : ℕ) (t : Table) (k : ℕ) (c : Setting) → IsSettingOf t k c → Stand t k self.old → ∥ IsOfTheList c self.old.top next ∥₁ → Write c limit self.old
            → self.old.done < limit → IfOk result (WritesOrEnds c limit self.new) }
        ensures never { (limit : ℕ) (t : Table) (k : ℕ) (c : Setting) → Stand t k self.old → Write c limit self.old → self.old.done < limit → NeverSpent result }
        ensures done { OnOk result (self.new.done ≡ self.old.done + 1) }
    {
        let name = name_of(&self.top);
        let words = do_alone(self.top.get_mut(), &mut self.pool, alloc, next)?;
        self.journal.act(name, kind_of(next), words)?;
        self.done += 1;
        Ok(None)
    }
}

/// A pool of one piece, of which nothing is out.
///
/// # Errors
///
/// There is not enough memory.
fn first_pool(alloc: Global) -> Result<Pool, AllocError>
    ensures { IfOk result (λ pool. pool.live ≡ 0) }
{
    match Pool::new(alloc, PIECE_WORDS) {
        Ok(pool) => Ok(pool),
        Err(PoolError::OutOfMemory) => Err(AllocError),
        Err(PoolError::NotWhole | PoolError::TooLarge) => unreachable!(),
    }
}
