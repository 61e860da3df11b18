//! How many of the first actions of the depth-first list are all done, and how many periods are ahead of these.

ghost use Rattle.std.specs.Prelude.{◌≡◌, ◌<◌, ◌≤◌, ◌↔◌, ℕ, List as AnyList, IfOk, IsTrue};
ghost use Rattle.containers.specs.BoundedList.{entries};
ghost use Rattle.depth_first_run.specs.States.{Setting};
ghost use Rattle.deque_machine.specs.Books.{Book as AnyBook, IsPrefix, done_in, goes_past, periods_ahead};
ghost use Rattle.deque_machine.specs.Lists.{Among};
ghost use Rattle.depth_first_run.specs.Run.{list_of};
ghost use Rattle.prefix_laws.specs.Listing.{AreBooked};
ghost use Rattle.prefix_laws.specs.Prefixes.{StandsBeside, TellsDepthFirst, all_ran, many_past, places_behind};

use crate::booked::{Places, booked};
use containers::BoundedList;
use open_periods::PeriodTable;
use serial_journal::Serial;
use std::alloc::{AllocError, Global};

/// Whether a period ran the action at a place.
fn ran(places: &Places, place: u32) -> bool
    ensures { IsTrue result ↔ Among place (entries places.now) }
{
    'places: for rank in 0..places.len() {
        if let Some(other) = places.at(rank) {
            if *other == place {
                return true;
            }
        }
    }
    false
}

/// Whether the action at a place is done.
fn is_done(books: &BoundedList<Places>, place: u32) -> bool
    ensures { IsTrue result ↔ Among place (all_ran (places_behind (entries books.now))) }
{
    'books: for rank in 0..books.len() {
        if let Some(book) = books.at(rank) {
            if ran(book, place) {
                return true;
            }
        }
    }
    false
}

/// How many of the first actions are all done, of so many.
fn prefix_in(books: &BoundedList<Places>, actions: u32) -> u32
    ensures inside { result ≤ actions }
    ensures done { (i : ℕ) → i < result → Among i (all_ran (places_behind (entries books.now))) }
    ensures next { result < actions → ¬ Among result (all_ran (places_behind (entries books.now))) }
{
    'actions: for place in 0..actions {
        if !is_done(books, place) {
            return place;
        }
    }
    actions
}

/// Whether a period ran an action that is not among the first ones.
fn is_past(places: &Places, prefix: u32) -> bool
    ensures { result ≡ goes_past prefix (entries places.now) }
{
    'places: for rank in 0..places.len() {
        if let Some(place) = places.at(rank) {
            if prefix <= *place {
                return true;
            }
        }
    }
    false
}

/// How many periods ran an action that is not among the first ones.
fn count_past(books: &BoundedList<Places>, prefix: u32) -> u32
    ensures { result ≡ many_past prefix (places_behind (entries books.now)) }
{
    let mut ahead = 0;
    'books: for rank in 0..books.len() {
        let Some(places) = books.at(rank) else {
            unreachable!();
        };
        ahead += u32::from(is_past(places, prefix));
    }
    ahead
}

/// How many actions of the depth-first run stand in books, from the first on and without a gap.
pub(crate) fn prefix_of(
    alloc: Global,
    table: &PeriodTable,
    serial: &Serial,
) -> Result<u32, AllocError>
    requires { StandsBeside table.now serial.now }
    ensures { (c : Setting) (books : AnyList AnyBook) → AreBooked c table.now books → TellsDepthFirst c serial.now
        → IfOk result (λ n. IsPrefix (list_of c) (done_in books) n) }
{
    let books = booked(alloc, table, serial)?;
    Ok(prefix_in(&books, serial.actions.len()))
}

/// How many periods, closed or open, ran an action that is not among these.
pub(crate) fn ahead_of(
    alloc: Global,
    table: &PeriodTable,
    serial: &Serial,
) -> Result<u32, AllocError>
    requires { StandsBeside table.now serial.now }
    ensures { (c : Setting) (books : AnyList AnyBook) (n : ℕ) → AreBooked c table.now books → TellsDepthFirst c serial.now
        → IsPrefix (list_of c) (done_in books) n → IfOk result (λ ahead. ahead ≡ periods_ahead n books) }
{
    let books = booked(alloc, table, serial)?;
    let prefix = prefix_in(&books, serial.actions.len());
    Ok(count_past(&books, prefix))
}
