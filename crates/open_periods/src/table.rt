ghost use Rattle.std.specs.Prelude.{◌≡◌, []};
ghost use Rattle.containers.specs.BoundedList.{entries};
ghost use Rattle.space_ledger.specs.BooksList.{books_list};
ghost use Rattle.open_periods.specs.Numbers.{NumbersDiffer, NumbersWithin, all_periods};

use crate::seat::Seat;
use dag_order::Births;
use space_ledger::Books;

/// The periods of some workers.
#[derive(Drop)]
pub struct PeriodTable {
    pub(crate) seats: Vec<Option<Seat>>,
    pub(crate) books: Books,
    /// A list without births, for a period that forks for the first time: most periods fork nothing, and take no memory for births.
    pub(crate) first_births: Births,
    pub(crate) begun: u32,
    pub ghost no_births: { entries first_births ≡ [] },
    pub ghost numbers_differ: { NumbersDiffer (all_periods (books_list books) seats.items) },
    pub ghost numbers_within: { NumbersWithin (all_periods (books_list books) seats.items) begun },
}
