//! Actions that a thread does by itself.

ghost use Rattle.std.specs.Prelude.{◌≡◌, ◌≤◌, ◌<◌, ℕ, Some, IfOk, OnOk, IsTrue};
ghost use Rattle.language_limits.specs.declared.TheConstants.{GREATEST_COUNT};
ghost use Rattle.thread_frames.specs.Actions.{IsAlloc, IsFault, IsJoin, TellsWords, is_there};
ghost use Rattle.thread_frames.specs.Points.{IsPlaced};
ghost use Rattle.thread_frames.specs.Views.{children_of, done_of, held_by, join_words_of, newest, next_of, thread_words, words_asked};
ghost use Rattle.serial_meaning.specs.Doing.{ActsAlone, DoesAlone, JoinsDelivered};

use block_arena::Pool;
use std::alloc::{AllocError, Global};
use thread_frames::{Next, Thread};

/// Does the next action of a thread, which is neither a Fork nor its End. The answer is how many words it takes or gives back.
///
/// # Errors
///
/// There is not enough memory.
pub(crate) fn do_alone(
    thread: &mut Thread,
    pool: &mut Pool,
    alloc: Global,
    next: Next,
) -> Result<u64, AllocError>
    requires placed { IsPlaced thread.old }
    requires next { next_of thread.old ≡ Some next }
    requires alone { DoesAlone next }
    requires delivered { JoinsDelivered next (children_of thread.old) }
    requires count { done_of thread.old < GREATEST_COUNT }
    requires live { thread_words thread.old ≤ pool.old.live }
    ensures acts { OnOk result (ActsAlone thread.old thread.new pool.old.live pool.new.live) }
    ensures words { (words : ℕ) → TellsWords thread.old next words → IfOk result (λ told. told ≡ words) }
{
    match next {
        Next::Alloc { words } => do_alloc(thread, pool, alloc, words),
        Next::Release { words } => {
            thread.do_release(pool);
            Ok(u64::from(words))
        }
        Next::Dummy => {
            thread.do_dummy();
            Ok(0)
        }
        Next::Fault(_) => Ok(do_fault(thread, pool)),
        Next::Join { .. } => Ok(do_join(thread, pool)),
        Next::Fork | Next::End => unreachable!(),
    }
}

/// Does an Alloc of so many words, for which the pool makes room.
///
/// # Errors
///
/// There is not enough memory.
fn do_alloc(
    thread: &mut Thread,
    pool: &mut Pool,
    alloc: Global,
    words: u32,
) -> Result<u64, AllocError>
    requires placed { IsPlaced thread.old }
    requires next { IsAlloc (next_of thread.old) }
    requires words { words_asked (next_of thread.old) ≡ words }
    requires count { done_of thread.old < GREATEST_COUNT }
    ensures acts { OnOk result (ActsAlone thread.old thread.new pool.old.live pool.new.live) }
    ensures words { IfOk result (λ told. told ≡ words) }
{
    pool.make_room(alloc, words)?;
    let Ok(()) = thread.do_alloc(pool) else {
        unreachable!();
    };
    Ok(u64::from(words))
}

/// Does a fault. The answer is how many words the thread gives back.
fn do_fault(thread: &mut Thread, pool: &mut Pool) -> u64
    requires placed { IsPlaced thread.old }
    requires next { IsFault (next_of thread.old) }
    requires count { done_of thread.old < GREATEST_COUNT }
    requires live { thread_words thread.old ≤ pool.old.live }
    ensures acts { ActsAlone thread.old thread.new pool.old.live pool.new.live }
    ensures words { result ≡ held_by thread.old }
{
    let before = pool.live();
    thread.do_fault(pool);
    before - pool.live()
}

/// Does the Join of a child that is delivered. The answer is how many words come out of it, which go back to the pool.
fn do_join(thread: &mut Thread, pool: &mut Pool) -> u64
    requires placed { IsPlaced thread.old }
    requires next { IsJoin (next_of thread.old) }
    requires delivered { IsTrue (is_there (newest (children_of thread.old))) }
    requires count { done_of thread.old < GREATEST_COUNT }
    requires live { thread_words thread.old ≤ pool.old.live }
    ensures acts { ActsAlone thread.old thread.new pool.old.live pool.new.live }
    ensures words { result ≡ join_words_of thread.old }
{
    let (words, rows) = thread.do_join();
    rows.give_all(pool);
    words
}
