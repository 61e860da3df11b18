ghost use Rattle.std.specs.Prelude.{◌≡◌, ℕ, ◌+◌, ◌≤◌, IfOk, nat_eq};
ghost use Rattle.std.specs.Option.{option_copied};
ghost use Rattle.std.specs.HashMap.{get, spare};
ghost use Rattle.space_ledger.specs.BooksList.{books_list};
ghost use Rattle.space_ledger.specs.Numbers.{place_of, closed_of, born_in, IsNoted};

use crate::book::Closed;
use crate::books::Books;
use dag_order::{Birth, ThreadId};
use std::alloc::{AllocError, Global};
use std::collections::HashMap;

/// The closed periods of some books by their numbers. It is made where somebody asks for them, so that books need not know their numbers
/// while they grow.
#[derive(Drop)]
pub struct NumberedBooks<'a> {
    books: &'a Books,
    // Where the first period of each number stands.
    places: HashMap<u32, u32>,
    pub ghost places_are: { (number : ℕ) → get nat_eq places number ≡ place_of (books_list books.now) number },
}

impl<'a> NumberedBooks<'a> {
    ghost use Rattle.space_ledger.specs.NumberedList.{numbered_list};

    /// These books by their numbers. It walks them once.
    ///
    /// # Errors
    ///
    /// There is not enough memory.
    pub fn of(alloc: Global, books: &'a Books) -> Result<NumberedBooks<'a>, AllocError>
        ensures { IfOk result (λ numbered. numbered_list numbered ≡ books_list books.now) }
    {
        let places = places_in(alloc, books)?;
        Ok(NumberedBooks { books, places })
    }

    /// The first period of a number; None exactly where none has it. It walks nothing.
    pub fn period(&self, number: u32) -> Option<&'a Closed>
        ensures { option_copied result ≡ closed_of (numbered_list self.now) number }
    {
        let Some(place) = self.places.get(&number) else {
            return None;
        };
        self.books.at(*place)
    }

    /// The birth of a thread; None exactly where no closed period has its number, or the period has not as many births. It walks nothing.
    pub fn birth(&self, id: ThreadId) -> Option<Birth>
        ensures { result ≡ born_in (numbered_list self.now) id }
    {
        let Some(closed) = self.period(id.period) else {
            return None;
        };
        closed.births.at(id.nth).copied()
    }
}

/// Where the first period of each number stands.
///
/// # Errors
///
/// There is not enough memory.
fn places_in(alloc: Global, books: &Books) -> Result<HashMap<u32, u32>, AllocError>
    ensures { IfOk result (λ places. (number : ℕ) → get nat_eq places number ≡ place_of (books_list books.now) number) }
{
    let mut places = HashMap::new(alloc);
    'books: for place in 0..books.periods() {
        let Some(closed) = books.at(place) else {
            unreachable!();
        };
        places.reserve(1)?;
        note_place(&mut places, closed.number, place);
    }
    Ok(places)
}

/// The period of this number stands at this place, if none of the number came before.
fn note_place(places: &mut HashMap<u32, u32>, number: u32, place: u32)
    requires { 1 ≤ spare places.old }
    ensures noted { IsNoted (get nat_eq places.old) (get nat_eq places.new) number place }
    ensures spare { spare places.old ≤ spare places.new + 1 }
{
    if places.contains_key(&number) {
        return;
    }
    match places.insert(number, place) {
        Ok(_) => {}
        Err(_) => unreachable!(),
    }
}
