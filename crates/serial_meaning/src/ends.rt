//! Ends: the result of a child goes to its parent, which runs on.

ghost use Rattle.std.specs.Prelude.{◌≡◌, ◌≤◌, ◌<◌, ◌+◌, ℕ, Some, IfOk, OnOk};
ghost use Rattle.language_limits.specs.declared.TheConstants.{GREATEST_COUNT};
ghost use Rattle.depth_first_run.specs.States.{Setting};
ghost use Rattle.node_table.specs.Table.{Table};
ghost use Rattle.thread_frames.specs.Passed.Settings.{IsSettingOf};
ghost use Rattle.thread_frames.specs.declared.next.Next.TheVariants as nexts;
ghost use Rattle.thread_frames.specs.Actions.{IsOfTheList};
ghost use Rattle.thread_frames.specs.Views.{next_of, recorded as words_recorded};
ghost use Rattle.serial_meaning.specs.Stacks.{Stand};
ghost use Rattle.serial_meaning.specs.Ending.{HasEnded};
ghost use Rattle.serial_meaning.specs.Writing.{Write, GoesOrEnds, WritesOrEnds, NeverSpent};

use crate::naming::name_of;
use crate::run::Run;
use block_arena::RecordBlock;
use dag_order::Kind;
use language_limits::RECORD_WORDS;
use serial_journal::SerialStop;
use std::mem;
use thread_frames::{Ended, give_record};

impl Run {
    /// Does the End of the top thread. The answer is its result, where it is the root.
    ///
    /// # Errors
    ///
    /// There is not enough memory.
    pub(crate) fn end(&mut self) -> Result<Option<Ended>, SerialStop>
        requires stand { (t : Table) × (k : ℕ) × Stand t k self.old }
        requires count { self.old.done < GREATEST_COUNT }
        requires next { next_of self.old.top ≡ Some nexts.End }
        ensures stand { (t : Table) (k : ℕ) → Stand t k self.old → IfOk result (GoesOrEnds t k self.new) }
        ensures write { (limit : ℕ) (t : Table) (k : ℕ) (c : Setting) → IsSettingOf t k c → Stand t k self.old → ∥ IsOfTheList c self.old.top nexts.End ∥₁ → Write c limit self.old
            → self.old.done < limit → IfOk result (WritesOrEnds c limit self.new) }
        ensures never { (limit : ℕ) (t : Table) (k : ℕ) (c : Setting) → Stand t k self.old → Write c limit self.old → self.old.done < limit → NeverSpent result }
        ensures done { OnOk result (self.new.done ≡ self.old.done + 1) }
    {
        let ended = self.end_top()?;
        Ok(self.hand_over(ended))
    }

    /// The End of the top thread, whose record block goes back, and which is of no further use but for its place. There is room for it among
    /// those that have ended.
    ///
    /// # Errors
    ///
    /// There is not enough memory.
    fn end_top(&mut self) -> Result<Ended, SerialStop>
        requires stand { (t : Table) × (k : ℕ) × Stand t k self.old }
        requires count { self.old.done < GREATEST_COUNT }
        requires next { next_of self.old.top ≡ Some nexts.End }
        ensures ended { (t : Table) (k : ℕ) → Stand t k self.old → IfOk result (HasEnded t k self.old self.new) }
        ensures never { (limit : ℕ) (t : Table) (k : ℕ) (c : Setting) → Stand t k self.old → Write c limit self.old → self.old.done < limit → NeverSpent result }
    {
        self.used.reserve(1)?;
        let name = name_of(&self.top);
        let (ended, block) = self.top.get_mut().end();
        self.journal.act(name, Kind::End, words_of(&block))?;
        give_record(block, &mut self.pool);
        self.done += 1;
        Ok(ended)
    }

    /// The result of a child goes to its parent, which runs on. That of the root is the answer.
    fn hand_over(&mut self, ended: Ended) -> Option<Ended>
        requires ended { (t : Table) × (k : ℕ) × (before : Run) × Stand t k before × HasEnded t k before self.old ended }
        ensures stand { (t : Table) (k : ℕ) (before : Run) → Stand t k before → HasEnded t k before self.old ended → GoesOrEnds t k self.new result }
        ensures write { (limit : ℕ) (t : Table) (k : ℕ) (c : Setting) (before : Run) → IsSettingOf t k c → Stand t k before → HasEnded t k before self.old ended
            → ∥ IsOfTheList c before.top nexts.End ∥₁ → Write c limit before → before.done < limit → WritesOrEnds c limit self.new result }
        ensures done { self.new.done ≡ self.old.done }
    {
        let Some(mut parent) = self.parents.pop() else {
            return Some(ended);
        };
        parent.get_mut().deliver(ended);
        let used = mem::replace(&mut self.top, parent);
        self.used.push_reserved(used);
        None
    }
}

/// The words of a record block, if there is one.
fn words_of(block: &Option<RecordBlock>) -> u64
    ensures { result ≡ words_recorded block.now }
{
    match block {
        Some(_) => u64::from(RECORD_WORDS),
        None => 0,
    }
}
