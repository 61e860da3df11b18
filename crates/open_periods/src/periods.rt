//! What the calls of a table do to one period, for whoever holds periods elsewhere.

ghost use Rattle.std.specs.Prelude.{◌≡◌, ◌≤◌, ◌+◌, [], ◌∷◌, ◌++◌, ℕ, OnOk};
ghost use Rattle.depth_first_list.specs.Passed.Constants.{GREATEST_QUOTA};
ghost use Rattle.containers.specs.BoundedList.{entries, spare};
ghost use Rattle.space_ledger.specs.BooksList.{books_list, books_spare};
ghost use Rattle.open_periods.specs.Periods.{open_shown};
ghost use Rattle.open_periods.specs.Tables.{birth_room, noted, births_shown, closed_of};

use crate::Period;
use dag_order::{ActionId, Birth, Births};
use space_ledger::Books;
use std::alloc::AllocError;
use std::mem;

/// Makes room in a period for an action, and for a birth, if it is not the first one.
///
/// # Errors
///
/// There is not enough memory. The period is unchanged.
pub fn reserve_in(period: &mut Period) -> Result<(), AllocError>
    ensures shown { (w : ℕ) → open_shown w period.new ≡ open_shown w period.old }
    ensures book { OnOk result (1 ≤ spare period.new.book) }
    ensures births { (first : ℕ) → 1 ≤ first → OnOk result (1 ≤ birth_room (entries period.new.births) (spare period.new.births) first) }
{
    period.book.reserve()?;
    if period.births.is_empty() {
        return Ok(());
    }
    period.births.reserve()
}

/// Notes an action in a period, with the words that it takes of the quota and the birth that comes with it. If the birth is the first one of
/// the period, it takes the list `first`, which has no births, and leaves its own.
pub fn note_in(
    period: &mut Period,
    first: &mut Births,
    id: ActionId,
    words: u32,
    birth: Option<Birth>,
)
    requires book { 1 ≤ spare period.old.book }
    requires births { 1 ≤ birth_room (entries period.old.births) (spare period.old.births) (spare first.old) }
    requires none { entries first.old ≡ [] }
    requires fits { period.old.used + words ≤ GREATEST_QUOTA }
    ensures notes { (w : ℕ) → open_shown w period.new ≡ noted (open_shown w period.old) id words (births_shown birth) }
    ensures none { entries first.new ≡ [] }
{
    period.book.add(id);
    period.note(words);
    if let Some(birth) = birth {
        add_birth(&mut period.births, first, birth);
    }
}

/// A birth. The first one of a period comes into the list that is ready for it.
fn add_birth(births: &mut Births, first: &mut Births, birth: Birth)
    requires room { 1 ≤ birth_room (entries births.old) (spare births.old) (spare first.old) }
    requires none { entries first.old ≡ [] }
    ensures births { entries births.new ≡ entries births.old ++ birth ∷ [] }
    ensures none { entries first.new ≡ [] }
{
    if births.is_empty() {
        mem::swap(births, first);
    }
    births.add(birth);
}

/// Closes a period: it goes to the end of the closed ones. It takes no memory.
pub fn close_in(books: &mut Books, period: Period)
    requires { 1 ≤ books_spare books.old }
    ensures { books_list books.new ≡ books_list books.old ++ closed_of period ∷ [] }
{
    books.add(period.close());
}
