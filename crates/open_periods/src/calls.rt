ghost use Rattle.std.specs.Prelude.{◌≡◌, ◌≢◌, ◌≤◌, ◌<◌, ◌+◌, [], ℕ, None, Some, IfOk, OnOk, option_copied, length, slice_get, slice_set};
ghost use Rattle.depth_first_list.specs.Passed.Constants.{GREATEST_COUNT, GREATEST_QUOTA};
ghost use Rattle.containers.specs.BoundedList.{entries, spare};
ghost use Rattle.space_ledger.specs.BooksList.{books_spare};
ghost use Rattle.open_periods.specs.Periods.{Period as AnyPeriod, Adds, Replaces, open_shown};
ghost use Rattle.open_periods.specs.Tables.{HasRoomFor, ChangesSeat, seat_in, noted, births_shown};

use crate::Period;
use crate::periods::{close_in, note_in, reserve_in};
use crate::seat::Seat;
use crate::table::PeriodTable;
use containers::BoundedList;
use dag_order::{ActionId, Birth, Births};
use deque_list::DequeId;
use space_ledger::Books;
use std::alloc::{AllocError, Global};
use std::mem;

impl PeriodTable {
    ghost use Rattle.open_periods.specs.Tables.{periods_of, seat_at, deque_at, period_at, HasRoom, noted, shut, births_shown};

    /// A table for so many workers, who are all idle.
    ///
    /// # Errors
    ///
    /// There is not enough memory.
    pub fn new(alloc: Global, workers: u32) -> Result<PeriodTable, AllocError>
        ensures none { IfOk result (λ table. periods_of table ≡ []) }
        ensures begun { IfOk result (λ table. table.begun ≡ 0) }
        ensures workers { IfOk result (λ table. length table.seats.items ≡ workers) }
        ensures idle { IfOk result (λ table. (worker : ℕ) → seat_at table worker ≡ None) }
    {
        let mut seats = Vec::with_capacity(alloc, workers as usize)?;
        for _ in 0..workers {
            seats.push(None)?;
        }
        Ok(PeriodTable {
            seats,
            books: Books::new(alloc),
            first_births: BoundedList::new(alloc),
            begun: 0,
        })
    }

    /// How many workers there are.
    pub fn workers(&self) -> usize
        ensures { result ≡ length self.now.seats.items }
    {
        self.seats.len()
    }

    /// How many periods were begun.
    pub fn begun(&self) -> u32
        ensures { result ≡ self.now.begun }
    {
        self.begun
    }

    /// The closed periods.
    pub fn books(&self) -> &Books
        ensures { result.now ≡ self.now.books }
    {
        &self.books
    }

    /// The closed periods, of a table that is done with.
    pub fn into_books(self) -> Books
        ensures { result ≡ self.books }
    {
        self.books
    }

    /// The seat of a worker; None exactly where it is idle.
    pub fn seat(&self, worker: usize) -> Option<&Seat>
        ensures { option_copied result ≡ seat_at self.now worker }
    {
        match self.seats.get(worker) {
            Some(seat) => seat.as_ref(),
            None => None,
        }
    }

    /// Makes room for an action and a birth in the period of a worker, and for closing it.
    ///
    /// # Errors
    ///
    /// There is not enough memory. The periods are as they were.
    pub fn reserve(&mut self, worker: usize) -> Result<(), AllocError>
        requires { (p : AnyPeriod) × (period_at self.old worker ≡ Some p) }
        ensures periods { periods_of self.new ≡ periods_of self.old }
        ensures deques { (w : ℕ) → deque_at self.new w ≡ deque_at self.old w }
        ensures shown { (w : ℕ) → period_at self.new w ≡ period_at self.old w }
        ensures begun { self.new.begun ≡ self.old.begun }
        ensures workers { length self.new.seats.items ≡ length self.old.seats.items }
        ensures room { OnOk result (HasRoom self.new worker) }
    {
        self.books.reserve()?;
        self.first_births.reserve()?;
        reserve_at(&mut self.seats, worker)
    }

    /// A period begins for an idle worker, which owns the deque from now on. Its number is the next one.
    pub fn begin(&mut self, worker: usize, deque: DequeId, period: Period)
        requires within { worker < length self.old.seats.items }
        requires idle { seat_at self.old worker ≡ None }
        requires number { period.number ≡ self.old.begun + 1 }
        requires few { self.old.begun < GREATEST_COUNT }
        ensures periods { Adds (periods_of self.old) (open_shown worker period) (periods_of self.new) }
        ensures begun { self.new.begun ≡ self.old.begun + 1 }
        ensures workers { length self.new.seats.items ≡ length self.old.seats.items }
        ensures seat { seat_at self.new worker ≡ Some (record { deque = deque; period = period }) }
        ensures others { (w : ℕ) → w ≢ worker → seat_at self.new w ≡ seat_at self.old w }
    {
        self.begun += 1;
        self.seats[worker] = Some(Seat { deque, period });
    }

    /// Notes an action in the period of a worker, with the words that it takes of the quota and the birth that comes with it.
    pub fn note(&mut self, worker: usize, id: ActionId, words: u32, birth: Option<Birth>)
        requires room { HasRoom self.old worker }
        requires fits { (p : AnyPeriod) → period_at self.old worker ≡ Some p → p.used + words ≤ GREATEST_QUOTA }
        ensures periods { (p : AnyPeriod) → period_at self.old worker ≡ Some p
            → Replaces (periods_of self.old) p (noted p id words (births_shown birth)) (periods_of self.new) }
        ensures shown { (p : AnyPeriod) → period_at self.old worker ≡ Some p
            → period_at self.new worker ≡ Some (noted p id words (births_shown birth)) }
        ensures deques { (w : ℕ) → deque_at self.new w ≡ deque_at self.old w }
        ensures others { (w : ℕ) → w ≢ worker → seat_at self.new w ≡ seat_at self.old w }
        ensures begun { self.new.begun ≡ self.old.begun }
        ensures workers { length self.new.seats.items ≡ length self.old.seats.items }
        ensures books { self.new.books ≡ self.old.books }
    {
        note_at(
            &mut self.seats,
            &mut self.first_births,
            worker,
            id,
            words,
            birth,
        );
    }

    /// Closes the period of a worker, which is idle from then on.
    pub fn close(&mut self, worker: usize)
        requires seat { (p : AnyPeriod) × (period_at self.old worker ≡ Some p) }
        requires room { 1 ≤ books_spare self.old.books }
        ensures periods { (p : AnyPeriod) → period_at self.old worker ≡ Some p
            → Replaces (periods_of self.old) p (shut p) (periods_of self.new) }
        ensures idle { seat_at self.new worker ≡ None }
        ensures others { (w : ℕ) → w ≢ worker → seat_at self.new w ≡ seat_at self.old w }
        ensures begun { self.new.begun ≡ self.old.begun }
        ensures workers { length self.new.seats.items ≡ length self.old.seats.items }
    {
        let seat = take_seat(&mut self.seats, worker);
        close_in(&mut self.books, seat.period);
    }
}

/// The seat of a worker, which is idle from then on.
fn take_seat(seats: &mut Vec<Option<Seat>>, worker: usize) -> Seat
    requires { (seat : Seat) × (slice_get seats.old.items worker ≡ Some (Some seat)) }
    ensures seat { slice_get seats.old.items worker ≡ Some (Some result) }
    ensures seats { seats.new.items ≡ slice_set seats.old.items worker None }
{
    match mem::replace(&mut seats[worker], None) {
        Some(seat) => seat,
        None => unreachable!(),
    }
}

/// Room for an action in the period of a worker, and for a birth, where it is not the first one.
fn reserve_at(seats: &mut Vec<Option<Seat>>, worker: usize) -> Result<(), AllocError>
    requires { (seat : Seat) × (slice_get seats.old.items worker ≡ Some (Some seat)) }
    ensures same { (seat : Seat) → slice_get seats.old.items worker ≡ Some (Some seat)
        → ChangesSeat seats.old.items worker seat (λ period. period) seats.new.items }
    ensures room { (first : ℕ) → 1 ≤ first → OnOk result (HasRoomFor first (seat_in (slice_get seats.new.items worker))) }
{
    match &mut seats[worker] {
        Some(seat) => reserve_in(&mut seat.period),
        None => unreachable!(),
    }
}

/// Notes an action in the period of a worker, with the words that it takes of the quota and the birth that comes with it.
fn note_at(
    seats: &mut Vec<Option<Seat>>,
    first: &mut Births,
    worker: usize,
    id: ActionId,
    words: u32,
    birth: Option<Birth>,
)
    requires room { HasRoomFor (spare first.old) (seat_in (slice_get seats.old.items worker)) }
    requires none { entries first.old ≡ [] }
    requires fits { (seat : Seat) → slice_get seats.old.items worker ≡ Some (Some seat) → seat.period.used + words ≤ GREATEST_QUOTA }
    ensures notes { (seat : Seat) → slice_get seats.old.items worker ≡ Some (Some seat)
        → ChangesSeat seats.old.items worker seat (λ period. noted period id words (births_shown birth)) seats.new.items }
    ensures none { entries first.new ≡ [] }
{
    match &mut seats[worker] {
        Some(seat) => note_in(&mut seat.period, first, id, words, birth),
        None => unreachable!(),
    }
}
