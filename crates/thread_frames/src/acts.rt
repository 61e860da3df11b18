//! Actions that are done by a thread alone.

ghost use Rattle.std.specs.Prelude.{◌≡◌, ◌≤◌, ◌<◌, ◌+◌, ◌↔◌, ℕ, IsErr, IfErr, OnOk, OnErr};
ghost use Rattle.language_limits.specs.declared.TheConstants.{GREATEST_COUNT};
ghost use Rattle.block_arena.specs.Region.{with_taken, with_given};
ghost use Rattle.node_table.specs.Table.{Table};

use crate::error::ArenaFull;
use crate::prepared::Prepared;
use crate::thread::Thread;
use block_arena::Pool;
use std::mem;

/// Whether so many words fit beside those that are out.
///
/// # Errors
///
/// [`ArenaFull`], exactly where they do not.
pub(crate) fn test_room(pool: &Pool, asked: u64) -> Result<(), ArenaFull>
    requires { asked < 4294967296 }
    ensures full { IsErr result ↔ (pool.now.capacity < pool.now.live + asked) }
    ensures told { IfErr result (λ refusal. refusal ≡ record { live = pool.now.live; asked = asked }) }
{
    let live = pool.live();
    if pool.capacity() < live + asked {
        return Err(ArenaFull { live, asked });
    }
    Ok(())
}

impl Thread {
    ghost use Rattle.thread_frames.specs.Views.{next_of, words_asked, held_by, done_of, thread_words};
    ghost use Rattle.thread_frames.specs.Points.{IsAtPoint, IsPlaced};
    ghost use Rattle.thread_frames.specs.Actions.{IsAlloc, IsRelease, IsDummy, IsFault, HasActed};

    /// The words of the allocation or the release that is prepared; 0 of another action.
    fn words_asked(&self) -> u32
        ensures { result ≡ words_asked (next_of self.now) }
    {
        match &self.prepared {
            Prepared::Alloc { words, .. } => *words,
            Prepared::Release { words, .. } => *words,
            _ => 0,
        }
    }

    /// Does the allocation that is prepared, with a block of the pool.
    ///
    /// # Errors
    ///
    /// [`ArenaFull`], exactly where its words do not fit beside those that are out. The thread and the pool are as they were.
    pub fn do_alloc(&mut self, pool: &mut Pool) -> Result<(), ArenaFull>
        requires placed { IsPlaced self.old }
        requires next { IsAlloc (next_of self.old) }
        requires count { done_of self.old < GREATEST_COUNT }
        ensures full { IsErr result ↔ (pool.old.capacity < pool.old.live + words_asked (next_of self.old)) }
        ensures told { IfErr result (λ refusal. refusal ≡ record { live = pool.old.live; asked = words_asked (next_of self.old) }) }
        ensures refused { OnErr result (self.new ≡ self.old) }
        ensures refused_pool { OnErr result (pool.new ≡ pool.old) }
        ensures acted { OnOk result (HasActed self.old self.new) }
        ensures words { OnOk result (thread_words self.new ≡ thread_words self.old + words_asked (next_of self.old)) }
        ensures pool { OnOk result (pool.new ≡ with_taken pool.old (words_asked (next_of self.old))) }
        ensures point { (t : Table) (k : ℕ) → IsAtPoint t k self.old → IsAtPoint t k self.new }
    {
        let asked = self.words_asked();
        test_room(pool, u64::from(asked))?;
        let Prepared::Alloc {
            slot,
            len,
            shell,
            ..
        } = mem::replace(&mut self.prepared, Prepared::Nothing)
        else {
            unreachable!();
        };
        let Ok(block) = pool.take(len, shell) else {
            unreachable!();
        };
        self.run.state.hold(slot, block);
        Ok(())
    }

    /// Does the release that is prepared: the block goes back to the pool.
    pub fn do_release(&mut self, pool: &mut Pool)
        requires placed { IsPlaced self.old }
        requires next { IsRelease (next_of self.old) }
        requires count { done_of self.old < GREATEST_COUNT }
        requires live { words_asked (next_of self.old) ≤ pool.old.live }
        ensures acted { HasActed self.old self.new }
        ensures words { thread_words self.new + words_asked (next_of self.old) ≡ thread_words self.old }
        ensures pool { pool.new ≡ with_given pool.old (words_asked (next_of self.old)) }
        ensures point { (t : Table) (k : ℕ) → IsAtPoint t k self.old → IsAtPoint t k self.new }
    {
        let Prepared::Release { slot, .. } = mem::replace(&mut self.prepared, Prepared::Nothing)
        else {
            unreachable!();
        };
        self.run.state.release(slot, pool);
    }

    /// Does the Dummy that is prepared.
    pub fn do_dummy(&mut self)
        requires next { IsDummy (next_of self.old) }
        requires count { done_of self.old < GREATEST_COUNT }
        requires placed { IsPlaced self.old }
        ensures acted { HasActed self.old self.new }
        ensures words { thread_words self.new ≡ thread_words self.old }
        ensures point { (t : Table) (k : ℕ) → IsAtPoint t k self.old → IsAtPoint t k self.new }
    {
        self.prepared = Prepared::Nothing;
        self.run.state.count_action();
    }

    /// Does the fault that is prepared: all blocks of the thread go back to the pool, but its record block, and it does no further
    /// statement.
    pub fn do_fault(&mut self, pool: &mut Pool)
        requires placed { IsPlaced self.old }
        requires next { IsFault (next_of self.old) }
        requires count { done_of self.old < GREATEST_COUNT }
        requires live { held_by self.old ≤ pool.old.live }
        ensures acted { HasActed self.old self.new }
        ensures words { thread_words self.new + held_by self.old ≡ thread_words self.old }
        ensures pool { pool.new ≡ with_given pool.old (held_by self.old) }
        ensures point { (t : Table) (k : ℕ) → IsAtPoint t k self.old → IsAtPoint t k self.new }
    {
        let Prepared::Fault(fault) = mem::replace(&mut self.prepared, Prepared::Nothing) else {
            unreachable!();
        };
        self.run.state.fault(pool);
        self.run.told.mark(fault);
    }
}
