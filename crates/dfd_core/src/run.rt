ghost use Rattle.std.specs.Prelude.{◌≡◌, ◌<◌, ◌≤◌, ◌↔◌, ℕ, List as AnyList, [], None, Some, Ok, Err, IfOk, IsTrue, MatchOption, length, pos};
ghost use Rattle.std.specs.Option.{option_copied, option_map};
ghost use Rattle.language_limits.specs.declared.TheConstants.{GREATEST_COUNT, MOST_WORKERS};
ghost use Rattle.containers.specs.BoundedList.{entries};
ghost use Rattle.depth_first_run.specs.States.{Setting, State};
ghost use Rattle.depth_first_run.specs.Run.{whole, lines_of, list_of};
ghost use Rattle.deque_list.specs.declared.deque_id.DequeId.{DequeId as AnyDequeId};
ghost use Rattle.open_periods.specs.Passed.Moments.{Moment, opening, live_at};
ghost use Rattle.open_periods.specs.Passed.Books.{booked, periods_marked};
ghost use Rattle.open_periods.specs.Passed.Play as play;
ghost use Rattle.open_periods.specs.Passed.DequeMachineRuns.{Pair, high_water_mark};
ghost use Rattle.depth_first_list.specs.QuotaWords.{quota_words};
ghost use Rattle.node_table.specs.Codes.{code_shown};
ghost use Rattle.open_periods.specs.Tables.{deque_at, seat_at};
ghost use Rattle.scheduler_state.specs.Passed.Settings.{IsSettingOf};
ghost use Rattle.scheduler_state.specs.Held.{held};
ghost use Rattle.scheduler_state.specs.Moments.{IsSound, CanGoOn, terms_of};
ghost use Rattle.open_periods.specs.Passed.Terms.{machine_of, given_terms};
ghost use Rattle.scheduler_state.specs.declared.stepped.OutputFail.TheVariants as fails;
ghost use Rattle.scheduler_state.specs.declared.stepped.Stepped.TheVariants as steps;
ghost use Rattle.dfd_core.specs.GiveUps.{end_behind_give_up};
ghost use Rattle.dfd_core.specs.Running.{IsSomewhere};

use crate::events::event_of;
use block_arena::Pool;
use containers::Boxed;
use dag_order::{Lines, ThreadId};
use depth_first_list::Quota;
use deque_list::{DequeId, List};
use language_limits::{MOST_ACTIONS, MOST_DEQUES, MOST_WORKERS};
use open_periods::{Period, Seat};
use play_rules::{RunEnd, first_mover, first_ready, some_ready};
use scheduler_state::{
    OutputFail, Scheduler, Stepped, end_behind, end_without_memory, is_finish, open_ahead,
    scheduler_of, told,
};
use space_ledger::{Books, Moves};
use std::alloc::{AllocError, Global};
use thread_frames::{Code, Thread};
use worker_step::give_up_deque;

/// A run of a program by some workers, one event at a time.
#[derive(Drop)]
pub struct Core {
    pub(crate) scheduler: Scheduler,
    pub(crate) code: Code,
    pub(crate) k: Quota,
    /// How many actions it may do.
    pub(crate) limit: u32,
    /// How many deques it may have.
    pub(crate) most: u32,
    pub(crate) alloc: Global,
    pub(crate) end: Option<RunEnd>,
    pub ghost sound: { IsSound (code_shown code) (quota_words k) (terms_of scheduler limit) (held scheduler) },
    pub ghost points: { end ≡ None → CanGoOn (code_shown code) (quota_words k) (held scheduler) },
    pub ghost somewhere: { IsSomewhere (code_shown code) (quota_words k) (terms_of scheduler limit) (held scheduler) end },
    pub ghost few: { limit < GREATEST_COUNT },
    pub ghost most_is: { most ≡ scheduler.list.most },
    pub ghost some_workers: { 1 ≤ length scheduler.table.seats.items },
    pub ghost few_workers: { length scheduler.table.seats.items ≤ MOST_WORKERS },
}

impl Core {
    ghost use Rattle.dfd_core.specs.Cores.{IsAt, Steps, GivesUp, SameSetting, HasFinished};
    ghost use Rattle.dfd_core.specs.Cores.{end_of, terms_at, workers_of, period_of, words_of_turn};
    ghost use Rattle.dfd_core.specs.Turns.{IsVictim};

    /// The run of a program by so many workers, at its start: one deque without an owner holds the root, and all workers are idle.
    /// It may do `limit` actions and have `most` deques.
    ///
    /// # Errors
    ///
    /// There is not enough memory.
    pub fn new(
        alloc: Global,
        code: Code,
        k: Quota,
        workers: u32,
        pool: Pool,
        limit: u32,
        most: u32,
    ) -> Result<Core, AllocError>
        requires workers { (1 ≤ workers) × (workers ≤ MOST_WORKERS) }
        requires limit { (1 ≤ limit) × (limit ≤ MOST_ACTIONS) }
        requires most { (1 ≤ most) × (most ≤ MOST_DEQUES) }
        requires pool { pool.live ≡ 0 }
        ensures opening { IfOk result (λ core. (c : Setting) → IsSettingOf (code_shown code) (quota_words k) c → IsAt c core [] opening) }
        ensures going { IfOk result (λ core. end_of core ≡ None) }
        ensures code { IfOk result (λ core. core.code ≡ code) }
        ensures quota { IfOk result (λ core. core.k ≡ k) }
        ensures terms { IfOk result (λ core. terms_at core ≡ given_terms workers pool.capacity limit most) }
    {
        let scheduler = scheduler_of(alloc, &code, workers, pool, most)?;
        Ok(Core {
            scheduler,
            code,
            k,
            limit,
            most,
            alloc,
            end: None,
        })
    }

    /// Lets the worker do one event. An idle worker steals, and the word picks from whom; the owner of a deque lets its top thread do its
    /// next action, or wait, or gives the deque up. A run that has ended stays as it is.
    pub fn step(&mut self, worker: u32, word: u64) -> Stepped
        requires { worker < workers_of self.old }
        ensures kept { (end : RunEnd) → end_of self.old ≡ Some end → (result ≡ steps.Over end) × (self.new ≡ self.old) }
        ensures steps { end_of self.old ≡ None → (c : Setting) (run : AnyList Pair) (m : Moment) → IsAt c self.old run m
            → Steps c self.new worker word run m result }
        ensures nothing { end_of self.old ≡ None → (c : Setting) (run : AnyList Pair) (m : Moment) → IsAt c self.old run m
            → (result ≡ steps.Nothing) ↔ ¬ play.CanMove (machine_of c (terms_at self.old)) m worker }
        ensures still { result ≡ steps.Nothing → self.new ≡ self.old }
        ensures over { (end : RunEnd) → result ≡ steps.Over end → end_of self.new ≡ Some end }
        ensures setting { SameSetting self.old self.new }
    {
        if let Some(end) = self.end {
            return Stepped::Over(end);
        }
        match event_of(
            &mut self.scheduler,
            self.alloc,
            &self.code,
            self.k,
            self.limit,
            worker,
            word,
        ) {
            Ok(None) => Stepped::Nothing,
            Ok(Some(event)) => {
                self.end = end_behind(&self.scheduler.results, event);
                told(event)
            }
            Err(stop) => {
                let end = RunEnd::Stopped(stop);
                self.end = Some(end);
                Stepped::Over(end)
            }
        }
    }

    /// Lets the owner of a deque give it up, which it may at any time, also where the run has ended.
    ///
    /// # Errors
    ///
    /// There is not enough memory. The run stays where it is, and has ended so, unless it had ended before.
    pub fn give_up(&mut self, worker: u32) -> Result<DequeId, AllocError>
        requires { (id : AnyDequeId) × (deque_at self.old.scheduler.table worker ≡ Some id) }
        ensures gives { (c : Setting) (run : AnyList Pair) (m : Moment) → IsAt c self.old run m → GivesUp c self.new worker run m result }
        ensures deque { IfOk result (λ id. deque_at self.old.scheduler.table worker ≡ Some id) }
        ensures end { end_of self.new ≡ end_behind_give_up result (end_of self.old) }
        ensures setting { SameSetting self.old self.new }
    {
        match give_up_deque(&mut self.scheduler, self.alloc, worker as usize) {
            Ok(deque) => Ok(deque),
            Err(error) => {
                self.end = Some(end_without_memory(self.end));
                Err(error)
            }
        }
    }

    /// Whether a step of the worker would do an event, or meet a stop.
    pub fn can_move(&self, worker: u32) -> bool
        ensures { (c : Setting) (run : AnyList Pair) (m : Moment) → IsAt c self.now run m
            → IsTrue result ↔ ((end_of self.now ≡ None) × play.CanMove (machine_of c (terms_at self.now)) m worker) }
    {
        if self.end.is_some() {
            return false;
        }
        let is_ready = some_ready(&self.scheduler.list, self.workers());
        play_rules::can_move(&self.scheduler.table, is_ready, worker)
    }

    /// The worker that moves next, picked by a word: the first that can.
    pub(crate) fn mover(&self, word: u64) -> u32
        requires { end_of self.now ≡ None }
        ensures below { result < workers_of self.now }
        ensures first { (c : Setting) (run : AnyList Pair) (m : Moment) → IsAt c self.now run m
            → play.IsFirst (workers_of self.now) word (play.CanMove (machine_of c (terms_at self.now)) m) result }
    {
        let workers = self.workers();
        let is_ready = some_ready(&self.scheduler.list, workers);
        match first_mover(&self.scheduler.table, is_ready, workers, word) {
            Some(worker) => worker,
            None => unreachable!(),
        }
    }

    /// The place, from 0 at the left, of the deque that an idle worker robs, picked by a word; None exactly where there is none in reach that
    /// has a thread to steal.
    pub fn victim(&self, word: u64) -> Option<u32>
        ensures { (c : Setting) (run : AnyList Pair) (m : Moment) → IsAt c self.now run m
            → MatchOption result ((place : ℕ) → place < play.reach (machine_of c (terms_at self.now)) m → ¬ play.IsReady m place)
            (IsVictim c self.now m word) }
    {
        first_ready(&self.scheduler.list, self.workers(), word)
    }

    /// Whether a worker is idle: then its turn draws a second word.
    pub(crate) fn is_idle(&self, worker: u32) -> bool
        ensures { (c : Setting) (run : AnyList Pair) (m : Moment) → IsAt c self.now run m
            → play.words_drawn m worker ≡ words_of_turn result }
    {
        self.scheduler.table.seat(worker as usize).is_none()
    }

    /// How the run ended; None exactly while it goes on.
    pub fn end(&self) -> Option<RunEnd>
        ensures { result ≡ end_of self.now }
    {
        self.end
    }

    /// Whether the root came to its end.
    pub fn has_finished(&self) -> bool
        ensures { IsTrue result ↔ HasFinished self.now }
    {
        match self.end {
            None => false,
            Some(end) => is_finish(end),
        }
    }

    /// The lines that the program printed up to the first fault, once the run has finished: those of the depth-first run.
    ///
    /// # Errors
    ///
    /// The run has not finished, or there is not enough memory.
    pub fn output(&self) -> Result<Lines, OutputFail>
        ensures unfinished { (result ≡ Err fails.NotFinished) ↔ ¬ HasFinished self.now }
        ensures lines { (c : Setting) → IsSettingOf (code_shown self.now.code) (quota_words self.now.k) c
            → IfOk result (λ lines. entries lines ≡ lines_of (State.items (whole c))) }
    {
        if !self.has_finished() {
            return Err(OutputFail::NotFinished);
        }
        let Some(ended) = self.scheduler.results.get(ThreadId::ROOT) else {
            unreachable!();
        };
        match ended.lines(self.alloc) {
            Ok(lines) => Ok(lines),
            Err(_) => Err(OutputFail::OutOfMemory),
        }
    }

    /// The program.
    pub fn code(&self) -> &Code
        ensures { result.now ≡ self.now.code }
    {
        &self.code
    }

    /// The words that a worker may allocate between two steals.
    pub fn quota(&self) -> Quota
        ensures { result ≡ self.now.k }
    {
        self.k
    }

    /// How many workers there are.
    pub fn workers(&self) -> u32
        ensures value { result ≡ workers_of self.now }
        ensures some { 1 ≤ result }
    {
        self.scheduler.table.workers() as u32
    }

    /// How many actions the run may do.
    pub fn limit(&self) -> u32
        ensures { result ≡ (terms_at self.now).limits.actions }
    {
        self.limit
    }

    /// How many deques the run may have.
    pub fn most(&self) -> u32
        ensures { result ≡ (terms_at self.now).limits.deques }
    {
        self.most
    }

    /// How many words there are.
    pub fn capacity(&self) -> u64
        ensures { result ≡ (terms_at self.now).limits.capacity }
    {
        self.scheduler.pool.capacity()
    }

    /// How many words are out in blocks: those that are in use at the moment at which the core is.
    pub fn live(&self) -> u64
        ensures value { result ≡ self.now.scheduler.pool.live }
        ensures moment { (c : Setting) (run : AnyList Pair) (m : Moment) → IsAt c self.now run m → pos result ≡ live_at (list_of c) m }
    {
        self.scheduler.pool.live()
    }

    /// How many actions were done.
    pub fn actions(&self) -> u32
        ensures { (c : Setting) (run : AnyList Pair) (m : Moment) → IsAt c self.now run m → result ≡ length (booked m.books) }
    {
        self.scheduler.done
    }

    /// What the run holds between two events.
    pub fn scheduler(&self) -> &Scheduler
        ensures { result.now ≡ self.now.scheduler }
    {
        &self.scheduler
    }

    /// The deques, with the threads that are ready or run.
    pub fn list(&self) -> &List<Boxed<Thread>>
        ensures { result.now ≡ self.now.scheduler.list }
    {
        &self.scheduler.list
    }

    /// By how much each action changed the words that are out.
    pub fn moves(&self) -> &Moves
        ensures { result.now ≡ self.now.scheduler.moves }
    {
        &self.scheduler.moves
    }

    /// The closed periods.
    pub fn books(&self) -> &Books
        ensures { result.now ≡ self.now.scheduler.table.books }
    {
        self.scheduler.table.books()
    }

    /// How many periods were begun, open ones among them.
    pub fn periods(&self) -> u32
        ensures { (c : Setting) (run : AnyList Pair) (m : Moment) → IsAt c self.now run m → result ≡ length m.books }
    {
        self.scheduler.table.begun()
    }

    /// How many of them are marked ahead: at their beginning a deque stood to the left of theirs.
    pub fn ahead(&self) -> u32
        ensures { (c : Setting) (run : AnyList Pair) (m : Moment) → IsAt c self.now run m → result ≡ periods_marked m.books }
    {
        // For the prover alone: no more are marked than were begun, so the sum fits.
        let _periods = self.scheduler.table.begun();
        self.books().ahead() + open_ahead(&self.scheduler.table)
    }

    /// The greatest number of words that were in use at once.
    pub fn high(&self) -> u64
        ensures { (c : Setting) (run : AnyList Pair) (m : Moment) → IsAt c self.now run m
            → pos result ≡ high_water_mark (list_of c) run }
    {
        self.scheduler.moves.high() as u64
    }

    /// The deque and the period of a worker; None exactly where it is idle.
    pub fn seat(&self, worker: u32) -> Option<&Seat>
        ensures { option_copied result ≡ seat_at self.now.scheduler.table worker }
    {
        self.scheduler.table.seat(worker as usize)
    }

    /// The period of a worker; None exactly where it owns no deque.
    pub fn period(&self, worker: u32) -> Option<&Period>
        ensures value { option_copied result ≡ option_map period_of (seat_at self.now.scheduler.table worker) }
        ensures none { (option_copied result ≡ None) ↔ (deque_at self.now.scheduler.table worker ≡ None) }
    {
        match self.seat(worker) {
            Some(seat) => Some(&seat.period),
            None => None,
        }
    }
}
