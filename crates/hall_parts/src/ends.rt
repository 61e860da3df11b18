//! The End of a thread.

ghost use Rattle.std.specs.Prelude.{◌≡◌, ◌≤◌, ◌<◌, ◌∷◌, [], List as AnyList, length};
ghost use Rattle.containers.specs.BoundedList.{entries};
ghost use Rattle.block_arena.specs.Region.{with_given};
ghost use Rattle.thread_points.specs.Points.{words_at_end};
ghost use Rattle.hall_parts.specs.HallNames.{IsEnd, IsAwaited, children_of, label_of, next_of, Thread as AnyThread, thread_shown, result_shown, pool_shown};
ghost use Rattle.thread_frames.specs.declared.next.Next.TheVariants as nexts;
ghost use Rattle.thread_actions.specs.Results.{FirstAwaits, IsGiven};
ghost use Rattle.hall_slots.specs.Passed.Writing.{IsHanded};
ghost use Rattle.thread_actions.specs.Acts.{next_name};
ghost use Rattle.hall_parts.specs.Here.{MayEnd, PoolBecomes, HasMovesFor, TakesWords};
ghost use Rattle.hall_parts.specs.Ends.{EndsHere, EndsAbove};

use crate::actions::note_move;
use containers::Boxed;
use dag_order::{ActionId, Births};
use deque_list::Lane;
use hall_slots::PoolSlot;
use open_periods::{Period, note_in};
use thread_actions::{end_done, give};
use thread_frames::{Ended, Thread, give_record};

/// Hands a result to the thread on top of a lane, which waits for it.
fn give_top(lane: &mut Lane<Boxed<Thread>>, ended: Ended)
    requires { (parent : AnyThread) × (below : AnyList AnyThread) × (lane.old.items ≡ parent ∷ below)
        × IsAwaited (label_of parent) ended (children_of parent) }
    ensures { (parent : AnyThread) (below : AnyList AnyThread) → lane.old.items ≡ parent ∷ below
        → (now : AnyThread) × (lane.new.items ≡ now ∷ below) × IsGiven ended parent now
        × IsHanded (thread_shown parent) (result_shown ended) (thread_shown now) }
{
    let Some(mut parent) = lane.pop_top() else {
        unreachable!();
    };
    give(&mut parent, ended);
    lane.push_top(parent);
}

/// Does the End of a thread whose record block goes back to the pool, which every thread has but the root. Returns the name of the End and the
/// result. Of the thread there is no further use but for its place.
pub fn end_forked(
    period: &mut Period,
    first: &mut Births,
    pool: &mut PoolSlot,
    top: &mut Boxed<Thread>,
) -> (ActionId, Ended)
    requires may { MayEnd top.old period.old first.old }
    requires next { IsEnd (next_of top.old) }
    requires moves { HasMovesFor pool.old.pool.live pool.old.moves }
    requires live { words_at_end (label_of top.old) ≤ pool.old.pool.live }
    requires forked { 0 < length (label_of top.old) }
    ensures acts { EndsHere top.old period.old period.new result.0 result.1 }
    ensures words { TakesWords nexts.End top.old result.0 (pool_shown pool.old) (pool_shown pool.new) }
    ensures pool { PoolBecomes pool.new (with_given pool.old.pool (words_at_end (label_of top.old))) }
    ensures name { result.0 ≡ next_name top.old }
    ensures none { entries first.new ≡ [] }
{
    let before = pool.pool.live();
    let finished = end_done(top);
    give_record(finished.record, &mut pool.pool);
    note_move(&mut pool.moves, finished.name, before, pool.pool.live());
    note_in(period, first, finished.name, 0, None);
    (finished.name, finished.ended)
}

/// Does the End of the root, which needs no pool. Returns the name of the End and the result of the run.
pub fn end_root(
    period: &mut Period,
    first: &mut Births,
    top: &mut Boxed<Thread>,
) -> (ActionId, Ended)
    requires may { MayEnd top.old period.old first.old }
    requires next { IsEnd (next_of top.old) }
    requires root { label_of top.old ≡ [] }
    ensures acts { EndsHere top.old period.old period.new result.0 result.1 }
    ensures name { result.0 ≡ next_name top.old }
    ensures none { entries first.new ≡ [] }
{
    let finished = end_done(top);
    match finished.record {
        None => {}
        Some(_) => unreachable!(),
    }
    note_in(period, first, finished.name, 0, None);
    (finished.name, finished.ended)
}

/// Does the End of a forked thread whose parent is directly below: this has the result at once, and runs next. Returns the name of the End.
pub fn end_above(
    lane: &mut Lane<Boxed<Thread>>,
    period: &mut Period,
    first: &mut Births,
    pool: &mut PoolSlot,
    top: &mut Boxed<Thread>,
) -> ActionId
    requires may { MayEnd top.old period.old first.old }
    requires next { IsEnd (next_of top.old) }
    requires moves { HasMovesFor pool.old.pool.live pool.old.moves }
    requires live { words_at_end (label_of top.old) ≤ pool.old.pool.live }
    requires forked { 0 < length (label_of top.old) }
    requires above { (parent : AnyThread) × (below : AnyList AnyThread) × (lane.old.items ≡ parent ∷ below)
        × FirstAwaits top.old (parent ∷ below) }
    ensures acts { EndsAbove top.old lane.old.items period.old lane.new.items period.new result }
    ensures words { TakesWords nexts.End top.old result (pool_shown pool.old) (pool_shown pool.new) }
    ensures pool { PoolBecomes pool.new (with_given pool.old.pool (words_at_end (label_of top.old))) }
    ensures name { result ≡ next_name top.old }
    ensures none { entries first.new ≡ [] }
{
    let (name, ended) = end_forked(period, first, pool, top);
    give_top(lane, ended);
    name
}
