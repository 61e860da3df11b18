//! The books of a table, by the places of the actions in the depth-first list.

ghost use Rattle.std.specs.Prelude.{◌≡◌, List as AnyList, IfOk, map};
ghost use Rattle.std.specs.List.{AllZip};
ghost use Rattle.containers.specs.BoundedList.{entries};
ghost use Rattle.depth_first_run.specs.States.{Setting};
ghost use Rattle.deque_machine.specs.Books.{Book as AnyBook};
ghost use Rattle.deque_machine.specs.Lists.{Each};
ghost use Rattle.prefix_laws.specs.Listing.{AreBooked, births_behind, books_behind};
ghost use Rattle.prefix_laws.specs.Naming.{ArePlaced, IsKnown};
ghost use Rattle.prefix_laws.specs.Prefixes.{StandsBeside, TellsDepthFirst, ran_of, places_behind};

use crate::names::{Name, name_of, names_in, place_of};
use crate::numbered::in_order;
use containers::BoundedList;
use dag_order::Births;
use open_periods::PeriodTable;
use serial_journal::Serial;
use space_ledger::Book;
use std::alloc::{AllocError, Global};

/// What a period ran, by the places of the actions in the depth-first list.
pub(crate) type Places = BoundedList<u32>;

/// The places of the actions of a book.
fn places_of(
    alloc: Global,
    births: &[&Births],
    names: &BoundedList<Name>,
    book: &Book,
) -> Result<Places, AllocError>
    requires { Each (IsKnown (births_behind births.now) (entries names.now)) (entries book.now) }
    ensures { IfOk result (λ places. ArePlaced (births_behind births.now) (entries names.now) (entries book.now) (entries places)) }
{
    let mut places = BoundedList::new(alloc);
    'actions: for rank in 0..book.len() {
        let Some(id) = book.at(rank) else {
            unreachable!();
        };
        let name = name_of(alloc, births, *id)?;
        places.reserve()?;
        places.add(place_of(names, &name));
    }
    Ok(places)
}

/// The places of the actions of books, one book after another.
fn all_places(
    alloc: Global,
    births: &[&Births],
    names: &BoundedList<Name>,
    books: &[&Book],
) -> Result<BoundedList<Places>, AllocError>
    requires { Each (Each (IsKnown (births_behind births.now) (entries names.now))) (books_behind books.now) }
    ensures { IfOk result (λ all. AllZip (ArePlaced (births_behind births.now) (entries names.now)) (books_behind books.now)
        (places_behind (entries all))) }
{
    let mut all = BoundedList::new(alloc);
    'books: for rank in 0..books.len() {
        let places = places_of(alloc, births, names, books[rank])?;
        all.reserve()?;
        all.add(places);
    }
    Ok(all)
}

/// What each period ran, closed or open, in the order of their numbers.
///
/// Each action that was done is looked for among all actions of the depth-first run.
pub(crate) fn booked(
    alloc: Global,
    table: &PeriodTable,
    serial: &Serial,
) -> Result<BoundedList<Places>, AllocError>
    requires { StandsBeside table.now serial.now }
    ensures { (c : Setting) (books : AnyList AnyBook) → AreBooked c table.now books → TellsDepthFirst c serial.now
        → IfOk result (λ all. places_behind (entries all) ≡ map ran_of books) }
{
    let periods = in_order(alloc, table)?;
    let names = names_in(alloc, serial)?;
    all_places(alloc, &periods.births, &names, &periods.books)
}
