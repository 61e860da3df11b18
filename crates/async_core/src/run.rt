ghost use Rattle.std.specs.Prelude.{◌≡◌, ◌<◌, ◌≤◌, ◌+◌, ◌/◌, ◌↔◌, List as AnyList, [], None, Some, Ok, Err, IfOk, IsTrue, length, pos};
ghost use Rattle.language_limits.specs.declared.TheConstants.{GREATEST_COUNT, MOST_WORKERS, RECORD_WORDS};
ghost use Rattle.containers.specs.BoundedList.{entries};
ghost use Rattle.depth_first_run.specs.States.{Setting, State};
ghost use Rattle.depth_first_run.specs.Run.{whole, lines_of, list_of};
ghost use Rattle.deque_machine.specs.Moments.{Moment, opening, live_at};
ghost use Rattle.deque_machine.specs.Runs.{Pair, high_water_mark};
ghost use Rattle.deque_machine.specs.Terms.{given_terms};
ghost use Rattle.depth_first_list.specs.QuotaWords.{quota_words};
ghost use Rattle.deque_machine.specs.Books.{booked, periods_marked};
ghost use Rattle.node_table.specs.Codes.{code_shown};
ghost use Rattle.scheduler_state.specs.Passed.Settings.{IsSettingOf};
ghost use Rattle.scheduler_state.specs.declared.stepped.OutputFail.TheVariants as fails;
ghost use Rattle.scheduler_state.specs.declared.stepped.Stepped.TheVariants as steps;
ghost use Rattle.scheduler_state.specs.Held.{held};
ghost use Rattle.scheduler_state.specs.Moments.{IsSound, CanGoOn, terms_of};
ghost use Rattle.ready_machine.specs.ReadyPlay.{CanGo};
ghost use Rattle.async_core.specs.Running.{IsSomewhere};

use crate::arena::Arena;
use crate::events::event_of;
use dag_order::{Lines, ThreadId};
use depth_first_list::Quota;
use language_limits::{MOST_ACTIONS, MOST_ENTRIES, MOST_WORKERS, RECORD_WORDS};
use play_rules::{RunEnd, some_ready};
use scheduler_state::{
    OutputFail, Scheduler, Stepped, end_behind, is_finish, open_ahead, scheduler_of, told,
};
use space_ledger::{Books, Moves};
use std::alloc::{AllocError, Global};
use thread_frames::Code;

/// A run of a program by some workers with one ready list, one event at a time.
#[derive(Drop)]
pub struct AsyncCore {
    pub(crate) scheduler: Scheduler,
    pub(crate) code: Code,
    pub(crate) k: Quota,
    /// How many actions it may do.
    pub(crate) limit: u32,
    pub(crate) alloc: Global,
    pub(crate) end: Option<RunEnd>,
    pub ghost sound: { IsSound (code_shown code) (quota_words k) (terms_of scheduler limit) (held scheduler) },
    pub ghost points: { end ≡ None → CanGoOn (code_shown code) (quota_words k) (held scheduler) },
    pub ghost somewhere: { IsSomewhere (code_shown code) (quota_words k) (terms_of scheduler limit) (held scheduler) end },
    pub ghost few: { limit < GREATEST_COUNT },
    pub ghost most_is: { scheduler.list.most ≡ 1 + scheduler.pool.capacity / RECORD_WORDS },
    pub ghost some_workers: { 1 ≤ length scheduler.table.seats.items },
    pub ghost few_workers: { length scheduler.table.seats.items ≤ MOST_WORKERS },
}

/// How many entries the list may have: one, and one for each record that the arena has room for.
fn places(arena: &Arena) -> u32
    ensures value { result ≡ 1 + arena.now.pool.capacity / RECORD_WORDS }
    ensures few { (1 ≤ result) × (result ≤ MOST_ENTRIES) }
{
    1 + (arena.pool.capacity() / u64::from(RECORD_WORDS)) as u32
}

impl AsyncCore {
    ghost use Rattle.async_core.specs.Cores.{IsAt, Steps, SameSetting, HasFinished, end_of, terms_at, workers_of};

    /// The run of a program by so many workers, at its start: the root is ready, and all workers are idle. It may do `limit` actions. The
    /// list has a place for each entry that the words of the arena allow.
    ///
    /// # Errors
    ///
    /// There is not enough memory.
    pub fn new(
        alloc: Global,
        code: Code,
        k: Quota,
        workers: u32,
        arena: Arena,
        limit: u32,
    ) -> Result<AsyncCore, AllocError>
        requires workers { (1 ≤ workers) × (workers ≤ MOST_WORKERS) }
        requires limit { (1 ≤ limit) × (limit ≤ MOST_ACTIONS) }
        requires pool { arena.pool.live ≡ 0 }
        ensures opening { IfOk result (λ core. (c : Setting) → IsSettingOf (code_shown code) (quota_words k) c
            → IsAt c core [] opening) }
        ensures going { IfOk result (λ core. end_of core ≡ None) }
        ensures code { IfOk result (λ core. core.code ≡ code) }
        ensures quota { IfOk result (λ core. core.k ≡ k) }
        ensures terms { IfOk result (λ core. terms_at core ≡ given_terms workers arena.pool.capacity limit (1 + arena.pool.capacity / RECORD_WORDS)) }
    {
        let most = places(&arena);
        let Arena { pool } = arena;
        let scheduler = scheduler_of(alloc, &code, workers, pool, most)?;
        Ok(AsyncCore {
            scheduler,
            code,
            k,
            limit,
            alloc,
            end: None,
        })
    }

    /// Lets the worker do one event. An idle worker takes the leftmost ready thread; one that runs a thread lets it do its next action, or
    /// wait, or gives it up. A run that has ended stays as it is.
    pub fn step(&mut self, worker: u32) -> Stepped
        requires { worker < workers_of self.old }
        ensures kept { (end : RunEnd) → end_of self.old ≡ Some end → (result ≡ steps.Over end) × (self.new ≡ self.old) }
        ensures steps { end_of self.old ≡ None → (c : Setting) (run : AnyList Pair) (m : Moment) → IsAt c self.old run m
            → Steps c self.new worker run m result }
        ensures nothing { end_of self.old ≡ None → (c : Setting) (run : AnyList Pair) (m : Moment) → IsAt c self.old run m
            → (result ≡ steps.Nothing) ↔ ¬ CanGo m worker }
        ensures still { result ≡ steps.Nothing → self.new ≡ self.old }
        ensures over { (end : RunEnd) → result ≡ steps.Over end → end_of self.new ≡ Some end }
        ensures setting { SameSetting self.old self.new }
    {
        if let Some(end) = self.end {
            return Stepped::Over(end);
        }
        match event_of(
            &mut self.scheduler,
            self.alloc,
            &self.code,
            self.k,
            self.limit,
            worker,
        ) {
            Ok(None) => Stepped::Nothing,
            Ok(Some(event)) => {
                self.end = end_behind(&self.scheduler.results, event);
                told(event)
            }
            Err(stop) => {
                let end = RunEnd::Stopped(stop);
                self.end = Some(end);
                Stepped::Over(end)
            }
        }
    }

    /// Whether a step of the worker would do an event, or meet a stop.
    pub fn can_move(&self, worker: u32) -> bool
        requires { worker < workers_of self.now }
        ensures { (c : Setting) (run : AnyList Pair) (m : Moment) → IsAt c self.now run m
            → IsTrue result ↔ ((end_of self.now ≡ None) × CanGo m worker) }
    {
        if self.end.is_some() {
            return false;
        }
        let is_ready = some_ready(&self.scheduler.list, self.workers());
        play_rules::can_move(&self.scheduler.table, is_ready, worker)
    }

    /// How the run ended; None exactly while it goes on.
    pub fn end(&self) -> Option<RunEnd>
        ensures { result ≡ end_of self.now }
    {
        self.end
    }

    /// Whether the root came to its end.
    pub fn has_finished(&self) -> bool
        ensures { IsTrue result ↔ HasFinished self.now }
    {
        match self.end {
            None => false,
            Some(end) => is_finish(end),
        }
    }

    /// The lines that the program printed up to the first fault, once the run has finished: those of the depth-first run.
    ///
    /// # Errors
    ///
    /// The run has not finished, or there is not enough memory.
    pub fn output(&self) -> Result<Lines, OutputFail>
        ensures unfinished { (result ≡ Err fails.NotFinished) ↔ ¬ HasFinished self.now }
        ensures lines { (c : Setting) → IsSettingOf (code_shown self.now.code) (quota_words self.now.k) c
            → IfOk result (λ lines. entries lines ≡ lines_of (State.items (whole c))) }
    {
        if !self.has_finished() {
            return Err(OutputFail::NotFinished);
        }
        let Some(ended) = self.scheduler.results.get(ThreadId::ROOT) else {
            unreachable!();
        };
        match ended.lines(self.alloc) {
            Ok(lines) => Ok(lines),
            Err(_) => Err(OutputFail::OutOfMemory),
        }
    }

    /// The words that a worker may allocate between two steals.
    pub fn quota(&self) -> Quota
        ensures { result ≡ self.now.k }
    {
        self.k
    }

    /// How many workers there are.
    pub fn workers(&self) -> u32
        ensures value { result ≡ workers_of self.now }
        ensures some { 1 ≤ result }
    {
        self.scheduler.table.workers() as u32
    }

    /// How many actions the run may do.
    pub fn limit(&self) -> u32
        ensures { result ≡ (terms_at self.now).limits.actions }
    {
        self.limit
    }

    /// How many words are in use in blocks.
    pub fn live(&self) -> u64
        ensures value { result ≡ self.now.scheduler.pool.live }
        ensures moment { (c : Setting) (run : AnyList Pair) (m : Moment) → IsAt c self.now run m → pos result ≡ live_at (list_of c) m }
    {
        self.scheduler.pool.live()
    }

    /// How many actions were done.
    pub fn actions(&self) -> u32
        ensures { (c : Setting) (run : AnyList Pair) (m : Moment) → IsAt c self.now run m → result ≡ length (booked m.books) }
    {
        self.scheduler.done
    }

    /// What the run holds between two events.
    pub fn scheduler(&self) -> &Scheduler
        ensures { result.now ≡ self.now.scheduler }
    {
        &self.scheduler
    }

    /// By how much each action changed the words in use.
    pub fn moves(&self) -> &Moves
        ensures { result.now ≡ self.now.scheduler.moves }
    {
        &self.scheduler.moves
    }

    /// The closed periods.
    pub fn books(&self) -> &Books
        ensures { result.now ≡ self.now.scheduler.table.books }
    {
        self.scheduler.table.books()
    }

    /// How many periods were begun, open ones among them.
    pub fn periods(&self) -> u32
        ensures { (c : Setting) (run : AnyList Pair) (m : Moment) → IsAt c self.now run m → result ≡ length m.books }
    {
        self.scheduler.table.begun()
    }

    /// How many of them are marked ahead: at their beginning an entry was to the left of theirs.
    pub fn ahead(&self) -> u32
        ensures { (c : Setting) (run : AnyList Pair) (m : Moment) → IsAt c self.now run m → result ≡ periods_marked m.books }
    {
        // For the prover alone: no more are marked than were begun, so the sum fits.
        let _periods = self.scheduler.table.begun();
        self.books().ahead() + open_ahead(&self.scheduler.table)
    }

    /// The greatest number of words that were in use at once.
    pub fn high(&self) -> u64
        ensures { (c : Setting) (run : AnyList Pair) (m : Moment) → IsAt c self.now run m
            → pos result ≡ high_water_mark (list_of c) run }
    {
        self.scheduler.moves.high() as u64
    }
}
