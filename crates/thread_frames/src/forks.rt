//! Forks: the child, and what its parent keeps.

ghost use Rattle.std.specs.Prelude.{◌≡◌, ◌≤◌, ◌<◌, ◌+◌, ◌↔◌, ℕ, length, false, IsErr, IfOk, IfErr, OnOk, OnErr};
ghost use Rattle.language_limits.specs.declared.TheConstants.{GREATEST_COUNT};
ghost use Rattle.block_arena.specs.Region.{with_taken};
ghost use Rattle.depth_first_list.specs.Actions.{record_words};
ghost use Rattle.node_table.specs.Reading.{FitsSlots};
ghost use Rattle.node_table.specs.Table.{Table};
ghost use Rattle.thread_state.specs.States.{own_row};
ghost use Rattle.thread_run.specs.Functions.{forked_in as function_of_branch};
ghost use Rattle.thread_frames.specs.Memory.{RoomFits};
ghost use Rattle.thread_frames.specs.Forking.{ForksState};

use crate::child_room::ChildRoom;
use crate::error::ArenaFull;
use crate::open_child::OpenChild;
use crate::place::Place;
use crate::prepared::Prepared;
use crate::thread::Thread;
use block_arena::{Pool, RecordBlock};
use containers::Boxed;
use dag_order::ThreadId;
use language_limits::RECORD_WORDS;
use std::mem;
use thread_output::Told;
use thread_run::Forking;
use thread_stack::{Branch, Frame};
use thread_state::{ForkRoom, ThreadState};

impl Thread {
    ghost use Rattle.thread_frames.specs.Views.{next_of, done_of};
    ghost use Rattle.thread_frames.specs.Points.{IsAtPoint, IsPlaced};
    ghost use Rattle.thread_frames.specs.Actions.{IsFork, HasForked};

    /// Does the Fork that is prepared: the child, in this place, has this id, and its record block, of 16 words, is of the pool.
    ///
    /// # Errors
    ///
    /// [`ArenaFull`], exactly where 16 words do not fit beside those that are out. The thread and the pool are as they were.
    pub fn do_fork(
        &mut self,
        id: ThreadId,
        pool: &mut Pool,
        place: Place,
    ) -> Result<Boxed<Thread>, ArenaFull>
        requires placed { IsPlaced self.old }
        requires next { IsFork (next_of self.old) }
        requires count { done_of self.old < GREATEST_COUNT }
        ensures full { IsErr result ↔ (pool.old.capacity < pool.old.live + record_words) }
        ensures told { IfErr result (λ refusal. refusal ≡ record { live = pool.old.live; asked = record_words }) }
        ensures refused { OnErr result (self.new ≡ self.old) }
        ensures refused_pool { OnErr result (pool.new ≡ pool.old) }
        ensures forked { IfOk result (HasForked id self.old self.new) }
        ensures pool { OnOk result (pool.new ≡ with_taken pool.old record_words) }
        ensures point { (t : Table) (k : ℕ) → IsAtPoint t k self.old → IsAtPoint t k self.new }
        ensures child { (t : Table) (k : ℕ) → IsAtPoint t k self.old → IfOk result (IsAtPoint t k) }
    {
        let block = take_record(pool)?;
        let Prepared::Fork { forking, room } = mem::replace(&mut self.prepared, Prepared::Nothing)
        else {
            unreachable!();
        };
        let ChildRoom { room, named } = room;
        let func = forked_in(forking.branch, self.run.func);
        let state = fork_state(&mut self.run.state, forking.branch, room, &named);
        let alloc = *named.allocator();
        let before = mem::replace(&mut self.run.told, Told::new(alloc));
        self.run.frames.push_reserved(Frame::Joins(forking.branch));
        self.run.frames.push_reserved(forking.own);
        self.children.push_reserved(OpenChild {
            id,
            ordinal: self.run.state.forks(),
            func,
            before,
            ended: None,
        });
        Ok(place.begin(id, self.id, func, state, forking.work, block))
    }
}

/// A record block of the pool.
///
/// # Errors
///
/// [`ArenaFull`], exactly where its words do not fit beside those that are out. The pool is as it was.
fn take_record(pool: &mut Pool) -> Result<RecordBlock, ArenaFull>
    ensures full { IsErr result ↔ (pool.old.capacity < pool.old.live + record_words) }
    ensures told { IfErr result (λ refusal. refusal ≡ record { live = pool.old.live; asked = record_words }) }
    ensures refused { OnErr result (pool.new ≡ pool.old) }
    ensures pool { OnOk result (pool.new ≡ with_taken pool.old record_words) }
{
    match pool.take_record() {
        Some(block) => Ok(block),
        None => Err(ArenaFull {
            live: pool.live(),
            asked: u64::from(RECORD_WORDS),
        }),
    }
}

/// The function of a child that is forked in a function: the same one, or none where it runs a tree of dummies.
fn forked_in(branch: Branch, func: Option<u32>) -> Option<u32>
    ensures { result ≡ function_of_branch branch func }
{
    match branch {
        Branch::Par(_) => func,
        Branch::Dummies => None,
    }
}

/// The Fork of the state of a thread: a child that runs a branch has the blocks of the slots `named`.
fn fork_state(state: &mut ThreadState, branch: Branch, room: ForkRoom, named: &[u16]) -> ThreadState
    requires going { state.old.faulted ≡ false }
    requires count { state.old.done < GREATEST_COUNT }
    requires room { RoomFits state.old branch room }
    requires within { FitsSlots (length (own_row state.old)) named.now }
    ensures { ForksState branch named.now state.old state.new result }
{
    match branch {
        Branch::Par(_) => state.fork(room, named),
        Branch::Dummies => state.fork_dummies(room),
    }
}
