//! What a run did: the words that it took and gave back with their high-water mark, and which actions each period ran.
//!
//! The live words of a run are the sum of its moves, and its high-water mark is their greatest sum at any
//! time. Each period, from a steal to the next, has a book of the actions that it ran. Both are kept as the
//! run goes on, with their sums, so that no call walks them. Behind a run a period is found by its number, and the birth
//! of a thread by the thread's id.
//!
//! The crate stands on `containers` and `dag_order`. Its one theorem: [`Moves::high`] is the greatest sum
//! of a prefix of the moves, [`Books`] counts its periods, marks and actions, and [`NumberedBooks`] finds the periods.
//!
//! # Why
//!
//! - The high-water mark is a function of the list of moves (by cases on the list), and `high` says besides that it is the greatest sum of a
//!   prefix. The running sum and the greatest sum are kept, so neither call walks.
//! - Books do not know the numbers of their periods while they grow: a map from numbers to places cost a fifth of a run whose periods are
//!   short. `NumberedBooks` makes it when a closed period is looked for by its number, or a birth by the id of its thread.
#![tactic(auto)]

mod book;
mod books;
mod moved;
mod moves;
mod numbered;

pub use book::{Book, Closed};
pub use books::Books;
pub use dag_order::Births;
pub use moved::Moved;
pub use moves::Moves;
pub use numbered::NumberedBooks;
