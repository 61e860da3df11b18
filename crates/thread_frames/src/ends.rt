//! The End of a thread, and what is left of it.

ghost use Rattle.std.specs.Prelude.{◌≡◌, ◌≤◌, ◌<◌, ◌+◌, ℕ, [], IfOk};
ghost use Rattle.language_limits.specs.declared.TheConstants.{GREATEST_COUNT};
ghost use Rattle.block_arena.specs.Region.{with_given};
ghost use Rattle.containers.specs.BoundedList.{entries};
ghost use Rattle.thread_state.specs.Passed.States.{Setting, State};
ghost use Rattle.thread_state.specs.Passed.Run.{whole, lines_of, first_fault};
ghost use Rattle.node_table.specs.Table.{Table};
ghost use Rattle.thread_output.specs.Telling.{fault_of};
ghost use Rattle.thread_run.specs.Passed.Points.{words_at_end};
ghost use Rattle.thread_state.specs.Settings.{IsSettingOf};
ghost use Rattle.thread_frames.specs.Views.{recorded, brought, all_brought};

use crate::ended::Ended;
use crate::open_child::OpenChild;
use crate::thread::Thread;
use block_arena::{Pool, RecordBlock};
use dag_order::{FaultAt, Lines, ThreadId};
use std::alloc::{AllocError, Global};
use std::mem;
use thread_output::Told;
use thread_state::ThreadState;

impl Thread {
    ghost use Rattle.thread_frames.specs.Views.{next_of, label_of, done_of, thread_words, ended_words, ended_label};
    ghost use Rattle.thread_frames.specs.Points.{IsAtPoint, IsPlaced, IsResult};
    ghost use Rattle.thread_frames.specs.Actions.{IsEnd};

    /// Does the End that is prepared. Returns the result of the thread and its record block, which the caller gives to the pool
    /// ([`give_record`]); the root has none. Of the thread there is no further use but for its place.
    pub fn end(&mut self) -> (Ended, Option<RecordBlock>)
        requires placed { IsPlaced self.old }
        requires next { IsEnd (next_of self.old) }
        requires count { done_of self.old < GREATEST_COUNT }
        ensures id { result.0.id ≡ self.old.id }
        ensures parent { result.0.parent ≡ self.old.parent }
        ensures func { result.0.func ≡ self.old.func }
        ensures label { ended_label result.0 ≡ label_of self.old }
        ensures words { ended_words result.0 + words_at_end (label_of self.old) ≡ thread_words self.old }
        ensures record { recorded result.1 ≡ words_at_end (label_of self.old) }
        ensures result { (t : Table) (k : ℕ) → IsAtPoint t k self.old → IsResult t k result.0 }
    {
        let record = self.record_block.take();
        self.run.state.count_action();
        let alloc = *self.run.frames.allocator();
        let ended = Ended {
            id: self.id,
            parent: self.parent,
            func: self.func,
            state: mem::replace(&mut self.run.state, ThreadState::blank(alloc)),
            told: mem::replace(&mut self.run.told, Told::new(alloc)),
        };
        (ended, record)
    }

    /// All blocks of the thread go back to the pool, its record block and those of delivered results among them, and it is no more.
    pub fn drop_into(self, pool: &mut Pool)
        requires { thread_words self ≤ pool.old.live }
        ensures { pool.new ≡ with_given pool.old (thread_words self) }
    {
        let Thread {
            run,
            children,
            record_block,
            ..
        } = self;
        run.state.give_all(pool);
        give_record(record_block, pool);
        give_results(children, pool);
    }
}

impl Ended {
    ghost use Rattle.thread_frames.specs.Views.{ended_label};
    ghost use Rattle.thread_frames.specs.Points.{IsResult};

    /// The id of the thread.
    pub fn id(&self) -> ThreadId
        ensures { result ≡ self.now.id }
    {
        self.id
    }

    /// The lines that the thread printed, and those that its children printed, in depth-first order up to the first fault. Those of the
    /// root are the lines of the whole run.
    ///
    /// # Errors
    ///
    /// There is not enough memory.
    pub fn lines(&self, alloc: Global) -> Result<Lines, AllocError>
        ensures { (t : Table) (k : ℕ) → IsResult t k self.now → ended_label self.now ≡ [] → (c : Setting) → IsSettingOf t k c
            → IfOk result (λ lines. entries lines ≡ lines_of (State.items (whole c))) }
    {
        self.told.lines(alloc)
    }

    /// The first fault that the thread or one of its children met; None exactly where they met none. That of the root is the first fault of
    /// the whole run.
    pub fn fault(&self) -> Option<FaultAt>
        ensures value { result ≡ fault_of self.now.told }
        ensures root { (t : Table) (k : ℕ) → IsResult t k self.now → ended_label self.now ≡ [] → (c : Setting) → IsSettingOf t k c
            → result ≡ first_fault (State.items (whole c)) }
    {
        self.told.fault()
    }
}

/// Gives a record block back to the pool, if there is one.
pub fn give_record(block: Option<RecordBlock>, pool: &mut Pool)
    requires { recorded block ≤ pool.old.live }
    ensures { pool.new ≡ with_given pool.old (recorded block) }
{
    if let Some(block) = block {
        pool.give_record(block);
    }
}

/// The blocks of the results of delivered children go back to the pool.
fn give_results(children: Vec<OpenChild>, pool: &mut Pool)
    requires { all_brought children.items ≤ pool.old.live }
    ensures { pool.new ≡ with_given pool.old (all_brought children.items) }
{
    for child in children {
        give_result(child.ended, pool);
    }
}

/// The blocks of a result go back to the pool, where there is one.
fn give_result(ended: Option<Ended>, pool: &mut Pool)
    requires { brought ended ≤ pool.old.live }
    ensures { pool.new ≡ with_given pool.old (brought ended) }
{
    if let Some(ended) = ended {
        ended.state.give_all(pool);
    }
}
