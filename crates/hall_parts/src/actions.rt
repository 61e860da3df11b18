//! The actions that a thread does alone: those with blocks, the Join of a child whose result was handed over, and the Dummy.

ghost use Rattle.std.specs.Prelude.{◌≡◌, ◌≤◌, ◌+◌, ◌∷◌, [], ℕ, ◌++◌, pos, ◌+ℤ◌, ◌-ℤ◌, FitsSigned, ◌<◌, IsTrue};
ghost use Rattle.containers.specs.BoundedList.{entries, spare};
ghost use Rattle.language_limits.specs.declared.TheConstants.{GREATEST_QUOTA};
ghost use Rattle.hall_parts.specs.HallNames.{pool_shown, IsAlloc, IsRelease, IsFault, IsJoin, is_there, IsDummy, next_of, words_asked, held_by};
ghost use Rattle.hall_parts.specs.HallNames.{children_of, newest, join_words_of, ThreadId};
ghost use Rattle.open_periods.specs.Periods.{open_shown};
ghost use Rattle.open_periods.specs.Tables.{noted};
ghost use Rattle.hall_parts.specs.Here.{MayDo, PoolBecomes, HasRoomHere, HasMovesFor, ActsHere, TakesWords, GoesOnTop};
ghost use Rattle.std.specs.Int.{w64};
ghost use Rattle.block_arena.specs.declared.size.TheConstants.{MOST_COUNTED};
ghost use Rattle.space_ledger.specs.MovesList.{moves_list, moves_spare};
ghost use Rattle.space_ledger.specs.Sums.{total_change};
ghost use Rattle.block_arena.specs.Region.{with_taken, with_given};
ghost use Rattle.dag_order.specs.declared.fault.FaultAt.{FaultAt};
ghost use Rattle.thread_frames.specs.declared.next.Next.TheVariants as nexts;
ghost use Rattle.thread_actions.specs.Acts.{AllocIsCharged, Always, next_name};
ghost use Rattle.hall_parts.specs.Joins.{JoinsHere, ReleasesNothing};
ghost use Rattle.hall_parts.specs.Dummies.{DummyHere};

use containers::Boxed;
use dag_order::{ActionId, Births};
use deque_list::Lane;
use hall_slots::PoolSlot;
use open_periods::{Period, note_in};
use space_ledger::{Moved, Moves};
use thread_actions::{alloc_done, dummy_done, fault_done, join_done, release_done};
use thread_frames::Thread;

/// Puts a thread on top of a lane, and notes its action in the period, with the words that it uses of the quota.
pub(crate) fn put_back(
    lane: &mut Lane<Boxed<Thread>>,
    period: &mut Period,
    first: &mut Births,
    top: Boxed<Thread>,
    name: ActionId,
    words: u32,
)
    requires room { HasRoomHere 1 lane.old period.old (spare first.old) }
    requires none { entries first.old ≡ [] }
    requires fits { period.old.used + words ≤ GREATEST_QUOTA }
    ensures lane { lane.new.items ≡ top ∷ lane.old.items }
    ensures period { (w : ℕ) → open_shown w period.new ≡ noted (open_shown w period.old) name words [] }
    ensures none { entries first.new ≡ [] }
{
    lane.push_top(top);
    note_in(period, first, name, words, None);
}

/// Adds a move. The sum of the moves is then by its change more.
fn add_move(moves: &mut Moves, moved: Moved)
    requires room { 1 ≤ moves_spare moves.old }
    requires fits { FitsSigned w64 (total_change (moves_list moves.old) +ℤ moved.change) }
    ensures moves { moves_list moves.new ≡ moves_list moves.old ++ moved ∷ [] }
    ensures sum { total_change (moves_list moves.new) ≡ total_change (moves_list moves.old) +ℤ moved.change }
{
    moves.add(moved);
}

/// Notes by how much an action changed the words in use.
pub(crate) fn note_move(moves: &mut Moves, name: ActionId, before: u64, after: u64)
    requires moves { HasMovesFor before moves.old }
    requires before { before ≤ MOST_COUNTED }
    requires after { after ≤ MOST_COUNTED }
    ensures moves { moves_list moves.new ≡ moves_list moves.old ++ record { by = name; change = pos after -ℤ pos before } ∷ [] }
    ensures sum { total_change (moves_list moves.new) ≡ pos after }
{
    let change = after as i64 - before as i64;
    add_move(moves, Moved { by: name, change });
}

/// Does an Alloc that fits the arena, and uses `charge` words of the quota. Returns its name.
pub fn do_alloc(
    lane: &mut Lane<Boxed<Thread>>,
    period: &mut Period,
    first: &mut Births,
    pool: &mut PoolSlot,
    top: Boxed<Thread>,
    charge: u32,
) -> ActionId
    requires may { MayDo 1 charge top lane.old period.old first.old }
    requires next { IsAlloc (next_of top) }
    requires moves { HasMovesFor pool.old.pool.live pool.old.moves }
    requires arena { pool.old.pool.live + words_asked (next_of top) ≤ pool.old.pool.capacity }
    ensures acts { ActsHere (nexts.Alloc (words_asked (next_of top))) (AllocIsCharged charge) top lane.old.items period.old lane.new.items period.new
        result charge [] }
    ensures words { TakesWords (nexts.Alloc (words_asked (next_of top))) top result (pool_shown pool.old) (pool_shown pool.new) }
    ensures pool { PoolBecomes pool.new (with_taken pool.old.pool (words_asked (next_of top))) }
    ensures top { GoesOnTop top lane.old.items lane.new.items }
    ensures name { result ≡ next_name top }
    ensures none { entries first.new ≡ [] }
{
    let before = pool.pool.live();
    let mut top = top;
    let Ok(name) = alloc_done(&mut top, &mut pool.pool) else {
        unreachable!();
    };
    note_move(&mut pool.moves, name, before, pool.pool.live());
    put_back(lane, period, first, top, name, charge);
    name
}

/// Does a Release. Returns its name.
pub fn do_release(
    lane: &mut Lane<Boxed<Thread>>,
    period: &mut Period,
    first: &mut Births,
    pool: &mut PoolSlot,
    top: Boxed<Thread>,
) -> ActionId
    requires may { MayDo 1 0 top lane.old period.old first.old }
    requires next { IsRelease (next_of top) }
    requires moves { HasMovesFor pool.old.pool.live pool.old.moves }
    requires live { words_asked (next_of top) ≤ pool.old.pool.live }
    ensures acts { ActsHere (nexts.Release (words_asked (next_of top))) Always top lane.old.items period.old lane.new.items period.new result 0 [] }
    ensures words { TakesWords (nexts.Release (words_asked (next_of top))) top result (pool_shown pool.old) (pool_shown pool.new) }
    ensures pool { PoolBecomes pool.new (with_given pool.old.pool (words_asked (next_of top))) }
    ensures top { GoesOnTop top lane.old.items lane.new.items }
    ensures name { result ≡ next_name top }
    ensures none { entries first.new ≡ [] }
{
    let before = pool.pool.live();
    let mut top = top;
    let name = release_done(&mut top, &mut pool.pool);
    note_move(&mut pool.moves, name, before, pool.pool.live());
    put_back(lane, period, first, top, name, 0);
    name
}

/// Does a fault: all blocks of the thread go back but its record block. Returns the name of the action.
pub fn do_fault(
    lane: &mut Lane<Boxed<Thread>>,
    period: &mut Period,
    first: &mut Births,
    pool: &mut PoolSlot,
    top: Boxed<Thread>,
) -> ActionId
    requires may { MayDo 1 0 top lane.old period.old first.old }
    requires next { IsFault (next_of top) }
    requires moves { HasMovesFor pool.old.pool.live pool.old.moves }
    requires live { held_by top ≤ pool.old.pool.live }
    ensures acts { (at : FaultAt) → ActsHere (nexts.Fault at) Always top lane.old.items period.old lane.new.items period.new result 0 [] }
    ensures words { (at : FaultAt) → TakesWords (nexts.Fault at) top result (pool_shown pool.old) (pool_shown pool.new) }
    ensures pool { PoolBecomes pool.new (with_given pool.old.pool (held_by top)) }
    ensures top { GoesOnTop top lane.old.items lane.new.items }
    ensures name { result ≡ next_name top }
    ensures none { entries first.new ≡ [] }
{
    let before = pool.pool.live();
    let mut top = top;
    let name = fault_done(&mut top, &mut pool.pool);
    note_move(&mut pool.moves, name, before, pool.pool.live());
    put_back(lane, period, first, top, name, 0);
    name
}

/// Does a Join that releases no words. It needs no pool. Returns its name.
pub fn do_join(
    lane: &mut Lane<Boxed<Thread>>,
    period: &mut Period,
    first: &mut Births,
    top: Boxed<Thread>,
) -> ActionId
    requires may { MayDo 1 0 top lane.old period.old first.old }
    requires next { IsJoin (next_of top) }
    requires delivered { IsTrue (is_there (newest (children_of top))) }
    requires words { join_words_of top ≡ 0 }
    ensures acts { JoinsHere top lane.old.items period.old lane.new.items period.new result }
    ensures words { ReleasesNothing top }
    ensures name { result ≡ next_name top }
    ensures none { entries first.new ≡ [] }
{
    let mut top = top;
    let joined = join_done(&mut top);
    put_back(lane, period, first, top, joined.name, 0);
    joined.name
}

/// Does a Join that releases words, which go back to the pool. Returns its name.
pub fn do_join_giving(
    lane: &mut Lane<Boxed<Thread>>,
    period: &mut Period,
    first: &mut Births,
    pool: &mut PoolSlot,
    top: Boxed<Thread>,
) -> ActionId
    requires may { MayDo 1 0 top lane.old period.old first.old }
    requires next { IsJoin (next_of top) }
    requires delivered { IsTrue (is_there (newest (children_of top))) }
    requires words { 0 < join_words_of top }
    requires moves { HasMovesFor pool.old.pool.live pool.old.moves }
    requires live { join_words_of top ≤ pool.old.pool.live }
    ensures acts { JoinsHere top lane.old.items period.old lane.new.items period.new result }
    ensures words { (child : ThreadId) → TakesWords (nexts.Join child) top result (pool_shown pool.old) (pool_shown pool.new) }
    ensures pool { PoolBecomes pool.new (with_given pool.old.pool (join_words_of top)) }
    ensures name { result ≡ next_name top }
    ensures none { entries first.new ≡ [] }
{
    let before = pool.pool.live();
    let mut top = top;
    let joined = join_done(&mut top);
    joined.rows.give_all(&mut pool.pool);
    note_move(&mut pool.moves, joined.name, before, pool.pool.live());
    put_back(lane, period, first, top, joined.name, 0);
    joined.name
}

/// Does a Dummy, after which its caller ends the period. Returns its name.
pub fn do_dummy(
    lane: &mut Lane<Boxed<Thread>>,
    period: &mut Period,
    first: &mut Births,
    top: Boxed<Thread>,
) -> ActionId
    requires may { MayDo 1 0 top lane.old period.old first.old }
    requires next { IsDummy (next_of top) }
    ensures acts { DummyHere top lane.old.items period.old lane.new.items period.new result }
    ensures name { result ≡ next_name top }
    ensures none { entries first.new ≡ [] }
{
    let mut top = top;
    let name = dummy_done(&mut top);
    put_back(lane, period, first, top, name, 0);
    name
}
