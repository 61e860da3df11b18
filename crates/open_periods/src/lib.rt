//! The periods of a run by workers: what one may allocate, which books of the machine they are, and a table of them by workers.
//!
//! - [`Period`]: what a worker does from one steal to the next. It allocates at most a quota of words. An allocation that no longer fits ends it,
//!   and one above the quota is not charged: a tree of dummies comes before it. [`Period::charge`] answers exactly by the words used and the quota.
//! - The books that periods are: a scheduler names what was done by thread and index, and a thread by the period that forked it; the machine speaks
//!   of places in the depth-first list. A change of one period changes the one book of its number, wherever it is kept, labels stay, and a forked
//!   thread has a label of its own from then on ([`laws`]).
//! - [`PeriodTable`]: the closed periods, and for each worker that is not idle its seat: its deque and its open period. Each call changes one
//!   period and leaves the others unchanged, and the numbers of the periods differ. What a call does to one period (`reserve_in`, `note_in`,
//!   `close_in`) is a function of its own, for a scheduler that keeps its periods elsewhere.
//!
//! It uses names (`dag_order`), the ledger (`space_ledger`), the ids of deques (`deque_list`) and the books of the machine (`deque_machine`).
//!
//! # Why
//!
//! - `Period::start` makes room for a first action, so it may answer "not enough memory". Most periods fork nothing when the quota is small. So
//!   the memory for a first birth is in the `PeriodTable`, one list for all periods, and goes to the period with the birth.
//! - `Period::note` asks that the words used stay within the largest quota, which is what 'the allocation fits some quota' means.
#![tactic(auto)]

mod calls;
mod charge;
pub mod laws;
mod period;
mod periods;
mod seat;
mod table;

pub use charge::Charge;
pub use laws::replaced_twice;
pub use period::Period;
pub use periods::{close_in, note_in, reserve_in};
pub use seat::Seat;
pub use table::PeriodTable;
