//! What a thread does in its next action, with the pool if the action takes or gives words. Nothing else of a scheduler is touched.

ghost use Rattle.std.specs.Prelude.{◌≡◌, ◌≤◌, ◌<◌, ◌+◌, ◌↔◌, ℕ, IsErr, IfErr, IfOk, OnOk, OnErr, IsTrue};
ghost use Rattle.language_limits.specs.declared.TheConstants.{GREATEST_COUNT};
ghost use Rattle.block_arena.specs.Region.{with_taken, with_given};
ghost use Rattle.dag_order.specs.declared.fault.FaultAt.{FaultAt};
ghost use Rattle.depth_first_list.specs.Actions.{record_words};
ghost use Rattle.node_table.specs.Table.{Table};
ghost use Rattle.thread_points.specs.Points.{words_at_end};
ghost use Rattle.thread_state.specs.Joins.{words_released};
ghost use Rattle.thread_frames.specs.Actions.{IsAlloc, IsRelease, IsDummy, IsFault, IsJoin, IsFork, IsEnd, is_there};
ghost use Rattle.thread_frames.specs.Points.{IsAtPoint, IsPlaced, IsResult};
ghost use Rattle.thread_frames.specs.Views.{children_of, next_of, words_asked, done_of, held_by, join_words_of, newest, label_of, ended_label, recorded};
ghost use Rattle.thread_frames.specs.declared.next.Next.TheVariants as nexts;
ghost use Rattle.thread_frames.specs.declared.thread.Thread.{Thread as AnyThread};
ghost use Rattle.thread_actions.specs.Acts.{ActedAlone, ActedDummy, ActedJoin, ActedFork, ActedEnd, AllocIsCharged, Always, StaysAtPoint, next_name};

use crate::finished::Finished;
use crate::forked::Forked;
use crate::joined::Joined;
use block_arena::Pool;
use containers::Boxed;
use dag_order::{ActionId, ThreadId};
use thread_frames::{ArenaFull, Place, Thread};

/// The name of the next action of a thread.
pub fn name_of(thread: &Boxed<Thread>) -> ActionId
    ensures by { result.by ≡ AnyThread.id thread.now }
    ensures index { result.index ≡ done_of thread.now }
    ensures name { result ≡ next_name thread.now }
{
    ActionId {
        by: thread.get().id(),
        index: thread.get().done(),
    }
}

/// Does an Alloc.
///
/// # Errors
///
/// [`ArenaFull`], exactly where its words do not fit beside those that are out. Nothing is changed.
pub fn alloc_done(top: &mut Boxed<Thread>, pool: &mut Pool) -> Result<ActionId, ArenaFull>
    requires placed { IsPlaced top.old }
    requires next { IsAlloc (next_of top.old) }
    requires count { done_of top.old < GREATEST_COUNT }
    ensures full { IsErr result ↔ (pool.old.capacity < pool.old.live + words_asked (next_of top.old)) }
    ensures refused { IfErr result (λ full. full ≡ record { live = pool.old.live; asked = words_asked (next_of top.old) }) }
    ensures same_top { OnErr result (top.new ≡ top.old) }
    ensures same_pool { OnErr result (pool.new ≡ pool.old) }
    ensures did { IfOk result (λ name. (charge : ℕ)
        → ActedAlone (nexts.Alloc (words_asked (next_of top.old))) charge (AllocIsCharged charge) top.old top.new name) }
    ensures name { IfOk result (λ name. name ≡ next_name top.old) }
    ensures point { OnOk result (StaysAtPoint top.old top.new) }
    ensures pool { OnOk result (pool.new ≡ with_taken pool.old (words_asked (next_of top.old))) }
{
    let name = name_of(top);
    top.get_mut().do_alloc(pool)?;
    Ok(name)
}

/// Does a Release.
pub fn release_done(top: &mut Boxed<Thread>, pool: &mut Pool) -> ActionId
    requires placed { IsPlaced top.old }
    requires next { IsRelease (next_of top.old) }
    requires count { done_of top.old < GREATEST_COUNT }
    requires live { words_asked (next_of top.old) ≤ pool.old.live }
    ensures did { ActedAlone (nexts.Release (words_asked (next_of top.old))) 0 Always top.old top.new result }
    ensures name { result ≡ next_name top.old }
    ensures point { StaysAtPoint top.old top.new }
    ensures pool { pool.new ≡ with_given pool.old (words_asked (next_of top.old)) }
{
    let name = name_of(top);
    top.get_mut().do_release(pool);
    name
}

/// Does a Dummy.
pub fn dummy_done(top: &mut Boxed<Thread>) -> ActionId
    requires placed { IsPlaced top.old }
    requires next { IsDummy (next_of top.old) }
    requires count { done_of top.old < GREATEST_COUNT }
    ensures did { ActedDummy top.old top.new result }
    ensures name { result ≡ next_name top.old }
    ensures point { StaysAtPoint top.old top.new }
{
    let name = name_of(top);
    top.get_mut().do_dummy();
    name
}

/// Does a fault: all blocks of the thread go back but its record block.
pub fn fault_done(top: &mut Boxed<Thread>, pool: &mut Pool) -> ActionId
    requires placed { IsPlaced top.old }
    requires next { IsFault (next_of top.old) }
    requires count { done_of top.old < GREATEST_COUNT }
    requires live { held_by top.old ≤ pool.old.live }
    ensures did { (at : FaultAt) → ActedAlone (nexts.Fault at) 0 Always top.old top.new result }
    ensures name { result ≡ next_name top.old }
    ensures point { StaysAtPoint top.old top.new }
    ensures pool { pool.new ≡ with_given pool.old (held_by top.old) }
{
    let name = name_of(top);
    top.get_mut().do_fault(pool);
    name
}

/// Does the Join of the newest open child, whose result was delivered. What goes back to the pool comes with the answer.
pub fn join_done(top: &mut Boxed<Thread>) -> Joined
    requires placed { IsPlaced top.old }
    requires next { IsJoin (next_of top.old) }
    requires delivered { IsTrue (is_there (newest (children_of top.old))) }
    requires count { done_of top.old < GREATEST_COUNT }
    ensures did { ActedJoin top.old top.new result.name }
    ensures name { result.name ≡ next_name top.old }
    ensures words { result.words ≡ join_words_of top.old }
    ensures rows { words_released result.rows ≡ join_words_of top.old }
    ensures point { StaysAtPoint top.old top.new }
{
    let name = name_of(top);
    let (words, rows) = top.get_mut().do_join();
    Joined { name, words, rows }
}

/// Does a Fork: the child gets this id, and comes to be in this place.
///
/// # Errors
///
/// [`ArenaFull`], exactly where a record block does not fit beside the words that are out. Nothing is changed but that the place is gone.
pub fn fork_done(
    top: &mut Boxed<Thread>,
    id: ThreadId,
    pool: &mut Pool,
    place: Place,
) -> Result<Forked, ArenaFull>
    requires placed { IsPlaced top.old }
    requires next { IsFork (next_of top.old) }
    requires count { done_of top.old < GREATEST_COUNT }
    ensures full { IsErr result ↔ (pool.old.capacity < pool.old.live + record_words) }
    ensures refused { IfErr result (λ full. full ≡ record { live = pool.old.live; asked = record_words }) }
    ensures same_top { OnErr result (top.new ≡ top.old) }
    ensures same_pool { OnErr result (pool.new ≡ pool.old) }
    ensures did { IfOk result (λ forked. ActedFork id top.old top.new forked) }
    ensures name { IfOk result (λ forked. forked.name ≡ next_name top.old) }
    ensures by { IfOk result (λ forked. forked.name.by ≡ top.old.id) }
    ensures point { OnOk result (StaysAtPoint top.old top.new) }
    ensures child { IfOk result (λ forked. StaysAtPoint top.old forked.child) }
    ensures pool { OnOk result (pool.new ≡ with_taken pool.old record_words) }
{
    let name = name_of(top);
    let ordinal = top.get().forks() + 1;
    let child = top.get_mut().do_fork(id, pool, place)?;
    Ok(Forked {
        name,
        ordinal,
        child,
    })
}

/// Does the End of a thread. Its record block, which goes back to the pool, comes with the answer. Of the thread there is no further use but
/// for its place.
pub fn end_done(top: &mut Boxed<Thread>) -> Finished
    requires placed { IsPlaced top.old }
    requires next { IsEnd (next_of top.old) }
    requires count { done_of top.old < GREATEST_COUNT }
    ensures did { ActedEnd top.old result.name result.ended }
    ensures name { result.name ≡ next_name top.old }
    ensures id { result.ended.id ≡ top.old.id }
    ensures func { result.ended.func ≡ top.old.func }
    ensures label { ended_label result.ended ≡ label_of top.old }
    ensures record { recorded result.record ≡ words_at_end (label_of top.old) }
    ensures result { (t : Table) (k : ℕ) → IsAtPoint t k top.old → IsResult t k result.ended }
{
    let name = name_of(top);
    let (ended, record) = top.get_mut().end();
    Finished {
        name,
        ended,
        record,
    }
}
