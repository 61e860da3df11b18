//! What a core is taken apart into.

ghost use Rattle.std.specs.Prelude.{◌≡◌, ◌↔◌, List as AnyList, [], ◌∷◌, None, Some, IfSome, IsTrue};
ghost use Rattle.depth_first_run.specs.States.{Setting};
ghost use Rattle.open_periods.specs.Passed.Moments.{Moment};
ghost use Rattle.open_periods.specs.Passed.DequeMachineRuns.{Pair};
ghost use Rattle.depth_first_list.specs.QuotaWords.{quota_words};
ghost use Rattle.node_table.specs.Codes.{code_shown};
ghost use Rattle.deque_list.specs.Ids.{deque_id};
ghost use Rattle.play_rules.specs.declared.ends.RunEnd.{RunEnd as AnyEnd};
ghost use Rattle.dfd_core.specs.Cores.{HasFinished, IsAt, end_of, terms_at};
ghost use Rattle.dfd_core.specs.Parts.{AreAllIdle, AreOfRun, IsFresh, IsOfWholeRun, root_behind, root_result};
ghost use Rattle.thread_frames.specs.Roots.{IsRootAlone};

use crate::run::Core;
use block_arena::Pool;
use containers::Boxed;
use dag_order::ThreadId;
use depth_first_list::Quota;
use deque_list::{DequeId, Lane, Order};
use play_rules::RunEnd;
use space_ledger::{Books, Moves};
use thread_frames::{Code, Ended, Thread};

/// What is left of a run that has ended.
#[derive(Drop)]
pub struct CoreEnd {
    /// How it ended.
    pub end: RunEnd,
    /// The periods.
    pub books: Books,
    /// By how much each action changed the words that are out.
    pub moves: Moves,
    /// The result of the root; None exactly where the run was stopped.
    pub root: Option<Ended>,
}

/// What a run is made of that has done no step, for workers who each hold a lane.
#[derive(Drop)]
pub struct CoreParts {
    pub code: Code,
    /// The words that a worker may allocate between two steals.
    pub quota: Quota,
    pub workers: u32,
    /// How many actions the run may do.
    pub limit: u32,
    /// How many deques it may have.
    pub most: u32,
    /// The order of its one deque.
    pub order: Order,
    /// This deque.
    pub first: DequeId,
    /// Its lane, with the root alone.
    pub lane: Lane<Boxed<Thread>>,
    pub pool: Pool,
}

/// The result of the root of a run that ended so.
pub fn root_of(end: RunEnd, kept: Option<Ended>) -> Option<Ended>
    ensures { result ≡ root_behind end kept }
{
    match end {
        RunEnd::Finished(_) => kept,
        RunEnd::Stopped(_) => None,
    }
}

impl Core {
    /// Whether no worker owns a deque.
    pub fn are_all_idle(&self) -> bool
        ensures { IsTrue result ↔ AreAllIdle self.now }
    {
        'workers: for worker in 0..self.workers() {
            if self.seat(worker).is_some() {
                return false;
            }
        }
        true
    }

    /// What is left of a run that has ended, once no worker owns a deque.
    pub fn into_end(self) -> CoreEnd
        requires ended { (end : AnyEnd) × (end_of self ≡ Some end) }
        requires idle { AreAllIdle self }
        ensures end { end_of self ≡ Some result.end }
        ensures books { result.books ≡ self.scheduler.table.books }
        ensures moves { result.moves ≡ self.scheduler.moves }
        ensures run { (c : Setting) (run : AnyList Pair) (m : Moment) → IsAt c self run m → AreOfRun c run m result.books result.moves }
        ensures root { result.root ≡ root_result self result.end }
        ensures none { (result.root ≡ None) ↔ ¬ HasFinished self }
        ensures whole { IfSome result.root (λ ended. IsOfWholeRun (code_shown self.code) (quota_words self.k) ended) }
    {
        let Core {
            mut scheduler,
            end,
            ..
        } = self;
        let Some(end) = end else {
            unreachable!();
        };
        CoreEnd {
            end,
            root: root_of(end, scheduler.results.take(ThreadId::ROOT)),
            books: scheduler.table.into_books(),
            moves: scheduler.moves,
        }
    }

    /// What a run is made of that has done no step.
    pub fn into_parts(self) -> CoreParts
        requires { IsFresh self }
        ensures code { result.code ≡ self.code }
        ensures quota { result.quota ≡ self.k }
        ensures workers { result.workers ≡ (terms_at self).workers }
        ensures limit { result.limit ≡ (terms_at self).limits.actions }
        ensures most { result.most ≡ (terms_at self).limits.deques }
        ensures first { result.first ≡ deque_id 0 }
        ensures order { result.order.places ≡ (record { id = result.first; owner = None }) ∷ [] }
        ensures bound { result.order.most ≡ result.most }
        ensures lane { IsRootAlone (code_shown self.code) (quota_words self.k) result.lane.items }
        ensures pool { (result.pool.live ≡ 0) × (result.pool.capacity ≡ (terms_at self).limits.capacity) }
    {
        let workers = self.workers();
        let Core {
            scheduler,
            code,
            k,
            limit,
            most,
            ..
        } = self;
        let (order, first, lane) = scheduler.list.into_first();
        CoreParts {
            code,
            quota: k,
            workers,
            limit,
            most,
            order,
            first,
            lane,
            pool: scheduler.pool,
        }
    }
}
