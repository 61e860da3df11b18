use containers::BoundedList;
use dag_order::{ActionId, Births};

/// The actions that a period ran, in its order.
pub type Book = BoundedList<ActionId>;

/// A period that has ended.
#[derive(PartialEq, Eq, Debug, Drop)]
pub struct Closed {
    /// Its number, from 1.
    pub number: u32,
    /// Whether its deque had a deque to its left as it began.
    pub ahead: bool,
    /// The actions that it ran.
    pub book: Book,
    /// The threads that it forked: the n-th birth is that of the n-th Fork in the book.
    pub births: Births,
}
