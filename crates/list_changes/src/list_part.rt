ghost use Rattle.std.specs.Prelude.{◌≤◌, ◌∷◌, ◌++◌, Option, None, ℕ};
ghost use Rattle.space_ledger.specs.BooksList.{books_spare};
ghost use Rattle.list_changes.specs.Parts.{Has, Closes, place_with};

use deque_list::{DequeId, Order};
use open_periods::{Period, close_in};
use space_ledger::Books;
use thread_map::ThreadMap;

/// What the workers of a scheduler share, but for the lanes of the deques and the pool.
#[derive(Drop)]
pub struct ListPart<T, R> {
    /// The deques from left to right, each with its owner, if any.
    pub order: Order,
    /// The threads that wait, each under the id of the child that it waits for.
    pub waiting: ThreadMap<T>,
    /// The results of ended threads that are not joined, each under the id of its thread.
    pub results: ThreadMap<R>,
    /// The closed periods.
    pub books: Books,
    /// How many periods were begun.
    pub begun: u32,
}

impl<T, R> ListPart<T, R> {
    /// Takes the owner of a deque away, and closes its period. It takes no memory.
    pub fn give_up(&mut self, id: DequeId, period: Period)
        requires has { (owner : Option ℕ) × Has self.old.order.places id owner }
        requires room { 1 ≤ books_spare self.old.books }
        ensures { (owner : Option ℕ) (has : Has self.old.order.places id owner)
            → Closes self.old self.new (has.left ++ place_with id None ∷ has.right) period }
    {
        self.order.give_up(id);
        self.close(period);
    }

    /// Takes a deque out of the list, and closes its period. It takes no memory.
    pub fn remove(&mut self, id: DequeId, period: Period)
        requires has { (owner : Option ℕ) × Has self.old.order.places id owner }
        requires room { 1 ≤ books_spare self.old.books }
        ensures { (owner : Option ℕ) (has : Has self.old.order.places id owner)
            → Closes self.old self.new (has.left ++ has.right) period }
    {
        self.order.remove(id);
        self.close(period);
    }

    /// Closes a period, and leaves the deques as they are. It takes no memory.
    pub fn close(&mut self, period: Period)
        requires { 1 ≤ books_spare self.old.books }
        ensures { Closes self.old self.new self.old.order.places period }
    {
        close_in(&mut self.books, period);
    }
}
