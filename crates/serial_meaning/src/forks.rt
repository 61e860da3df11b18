//! Forks: the child runs first, and its parent waits.

ghost use Rattle.std.specs.Prelude.{◌≡◌, ◌≤◌, ◌<◌, ◌+◌, ℕ, Some, IfOk, OnOk, vec_len, vec_capacity};
ghost use Rattle.language_limits.specs.declared.TheConstants.{GREATEST_COUNT};
ghost use Rattle.depth_first_list.specs.Actions.{record_words};
ghost use Rattle.depth_first_run.specs.States.{Setting};
ghost use Rattle.node_table.specs.Table.{Table};
ghost use Rattle.thread_frames.specs.Passed.Settings.{IsSettingOf};
ghost use Rattle.thread_frames.specs.declared.next.Next.TheVariants as nexts;
ghost use Rattle.thread_frames.specs.Actions.{IsOfTheList, IsFork, HasForked};
ghost use Rattle.thread_frames.specs.Points.{IsAtPoint, IsPlaced};
ghost use Rattle.thread_frames.specs.Views.{done_of, next_of, thread_words};
ghost use Rattle.serial_meaning.specs.Stacks.{Stand};
ghost use Rattle.serial_meaning.specs.Writing.{Write, GoesOrEnds, WritesOrEnds, NeverSpent};

use crate::naming::name_of;
use crate::run::Run;
use block_arena::Pool;
use containers::Boxed;
use dag_order::ThreadId;
use language_limits::RECORD_WORDS;
use serial_journal::SerialStop;
use std::alloc::{AllocError, Global};
use std::mem;
use thread_frames::{Ended, Place, Thread};

impl Run {
    /// Does a Fork: the child is on top, and its parent is the nearest of those that wait.
    ///
    /// # Errors
    ///
    /// There is not enough memory.
    pub(crate) fn fork(&mut self, alloc: Global) -> Result<Option<Ended>, SerialStop>
        requires stand { (t : Table) × (k : ℕ) × Stand t k self.old }
        requires count { self.old.done < GREATEST_COUNT }
        requires next { next_of self.old.top ≡ Some nexts.Fork }
        ensures stand { (t : Table) (k : ℕ) → Stand t k self.old → IfOk result (GoesOrEnds t k self.new) }
        ensures write { (limit : ℕ) (t : Table) (k : ℕ) (c : Setting) → IsSettingOf t k c → Stand t k self.old → ∥ IsOfTheList c self.old.top nexts.Fork ∥₁ → Write c limit self.old
            → self.old.done < limit → IfOk result (WritesOrEnds c limit self.new) }
        ensures never { (limit : ℕ) (t : Table) (k : ℕ) (c : Setting) → Stand t k self.old → Write c limit self.old → self.old.done < limit → NeverSpent result }
        ensures done { OnOk result (self.new.done ≡ self.old.done + 1) }
    {
        let place = self.room_for_child(alloc)?;
        let name = name_of(&self.top);
        let ordinal = self.top.get().forks() + 1;
        let id = self.journal.fork(name, ordinal, RECORD_WORDS)?;
        let child = fork_child(self.top.get_mut(), &mut self.pool, id, place);
        let parent = mem::replace(&mut self.top, child);
        self.parents.push_reserved(parent);
        self.done += 1;
        Ok(None)
    }

    /// A place for a child, that of a thread that has ended or a new one; room for its parent among those that wait; and room in the pool
    /// for its record block.
    ///
    /// # Errors
    ///
    /// There is not enough memory.
    fn room_for_child(&mut self, alloc: Global) -> Result<Place, AllocError>
        ensures top { self.new.top ≡ self.old.top }
        ensures parents { self.new.parents.items ≡ self.old.parents.items }
        ensures journal { self.new.journal ≡ self.old.journal }
        ensures done { self.new.done ≡ self.old.done }
        ensures live { self.new.pool.live ≡ self.old.pool.live }
        ensures room { OnOk result (self.new.pool.live + record_words ≤ self.new.pool.capacity) }
        ensures room_below { OnOk result (vec_len self.new.parents < vec_capacity self.new.parents) }
    {
        self.pool.make_room(alloc, RECORD_WORDS)?;
        self.parents.reserve(1)?;
        match self.used.pop() {
            Some(thread) => Place::of(thread),
            None => Place::new(alloc),
        }
    }
}

/// Does the Fork of a thread, whose child gets this id.
fn fork_child(thread: &mut Thread, pool: &mut Pool, id: ThreadId, place: Place) -> Boxed<Thread>
    requires placed { IsPlaced thread.old }
    requires next { IsFork (next_of thread.old) }
    requires count { done_of thread.old < GREATEST_COUNT }
    requires room { pool.old.live + record_words ≤ pool.old.capacity }
    ensures forked { HasForked id thread.old thread.new result }
    ensures point { (t : Table) (k : ℕ) → IsAtPoint t k thread.old → IsAtPoint t k thread.new × IsAtPoint t k result }
    ensures words { pool.new.live + thread_words thread.old ≡ pool.old.live + (thread_words thread.new + thread_words result) }
{
    let Ok(child) = thread.do_fork(id, pool, place) else {
        unreachable!();
    };
    child
}
