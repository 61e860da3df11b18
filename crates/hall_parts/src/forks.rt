//! The Fork.

ghost use Rattle.std.specs.Prelude.{◌≡◌, ◌≤◌, ◌<◌, ◌+◌, ◌∷◌, [], ℕ, length};
ghost use Rattle.containers.specs.BoundedList.{entries, spare};
ghost use Rattle.block_arena.specs.Region.{with_taken};
ghost use Rattle.hall_slots.specs.Passed.DepthFirstListActions.{record_words};
ghost use Rattle.language_limits.specs.declared.TheConstants.{GREATEST_QUOTA};
ghost use Rattle.open_periods.specs.Periods.{open_shown};
ghost use Rattle.open_periods.specs.Tables.{noted};
ghost use Rattle.hall_parts.specs.HallNames.{IsFork, next_of, pool_shown};
ghost use Rattle.thread_frames.specs.declared.next.Next.TheVariants as nexts;
ghost use Rattle.thread_actions.specs.Acts.{next_name};
ghost use Rattle.hall_parts.specs.Here.{MayDo, PoolBecomes, HasRoomHere, HasMovesFor, TakesWords};
ghost use Rattle.hall_parts.specs.Forks.{ForksHere, GoBothOnTop};

use crate::actions::note_move;
use containers::Boxed;
use dag_order::{ActionId, Birth, Births, ThreadId};
use deque_list::Lane;
use hall_slots::PoolSlot;
use language_limits::RECORD_WORDS;
use open_periods::{Period, note_in};
use thread_actions::{Forked, fork_done};
use thread_frames::{Place, Thread};

/// The id of the thread that a period forks next.
fn next_id(period: &Period) -> ThreadId
    ensures { result ≡ record { period = period.now.number; nth = length (entries period.now.births) } }
{
    ThreadId {
        period: period.number,
        nth: period.births.len(),
    }
}

/// Puts a thread and the child that it forked on top of a lane, and notes the Fork in the period with the birth of the child.
fn put_both_back(
    lane: &mut Lane<Boxed<Thread>>,
    period: &mut Period,
    first: &mut Births,
    top: Boxed<Thread>,
    forked: Forked,
)
    requires room { HasRoomHere 2 lane.old period.old (spare first.old) }
    requires none { entries first.old ≡ [] }
    requires fits { period.old.used + record_words ≤ GREATEST_QUOTA }
    ensures lane { lane.new.items ≡ forked.child ∷ top ∷ lane.old.items }
    ensures period { (w : ℕ) → open_shown w period.new ≡ noted (open_shown w period.old) forked.name record_words
        (record { parent = forked.name.by; ordinal = forked.ordinal } ∷ []) }
    ensures none { entries first.new ≡ [] }
{
    let Forked {
        name,
        ordinal,
        child,
    } = forked;
    lane.push_top(top);
    lane.push_top(child);
    let birth = Birth {
        parent: name.by,
        ordinal,
    };
    note_in(period, first, name, RECORD_WORDS, Some(birth));
}

/// Does a Fork whose record block fits the arena: the child comes to be in this place, and runs on top of its parent. Returns the name of the
/// Fork.
pub fn do_fork(
    lane: &mut Lane<Boxed<Thread>>,
    period: &mut Period,
    first: &mut Births,
    pool: &mut PoolSlot,
    top: Boxed<Thread>,
    place: Place,
) -> ActionId
    requires may { MayDo 2 record_words top lane.old period.old first.old }
    requires next { IsFork (next_of top) }
    requires moves { HasMovesFor pool.old.pool.live pool.old.moves }
    requires arena { pool.old.pool.live + record_words ≤ pool.old.pool.capacity }
    ensures acts { ForksHere top lane.old.items period.old lane.new.items period.new result }
    ensures words { TakesWords nexts.Fork top result (pool_shown pool.old) (pool_shown pool.new) }
    ensures pool { PoolBecomes pool.new (with_taken pool.old.pool record_words) }
    ensures top { GoBothOnTop top lane.old.items lane.new.items }
    ensures name { result ≡ next_name top }
    ensures none { entries first.new ≡ [] }
{
    let before = pool.pool.live();
    let id = next_id(period);
    let mut top = top;
    let Ok(forked) = fork_done(&mut top, id, &mut pool.pool, place) else {
        unreachable!();
    };
    let name = forked.name;
    note_move(&mut pool.moves, name, before, pool.pool.live());
    put_both_back(lane, period, first, top, forked);
    name
}
