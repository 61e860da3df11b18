//! How far a core of either scheduler is, and how many words are left below the bound.
//!
//! At each moment of a run by workers the threads in the deques, or in the entries of a ready list, stand in depth-first order, and the words
//! in use are at most the peak of the depth-first run and two quotas for each period that is ahead of it. Here both are read off an actual
//! [`Core`](dfd_core::Core): [`leaves`] gives the labels of its threads in the deques, [`prefix_split`] how many actions of the depth-first
//! run are done from the first on and without a gap, [`ahead_now`] how many periods ran an action beyond these, and [`bound_margin`] how
//! many words are left below the bound. [`entries`] and [`async_margin`] are the same for an [`AsyncCore`](async_core::AsyncCore).
//!
//! It stands on both cores (`dfd_core`, `async_core`), on the births of threads (`dag_order`), on periods as books (`open_periods`) and on
//! the laws of the machine (`deque_machine`). Its one theorem: these are the labels and the numbers of the moment at which the core is,
//! whatever its program; the labels rise, and the margin is never below 0.
//!
//! # Why
//!
//! - **`leaves` gives labels, a `Vec<Label>`**, and not ids, since the law that they rise is one on labels. Each label is made from the id of
//!   its thread and the births of all periods. This takes memory, so the answer may be "not enough memory".
//! - **It stands above both cores.** What it reads off is in the periods of a table and in the deques of a scheduler, whichever core has them
//!   (`AreBooked`, `HasRun`), and each public function is one call. So `entries` and `async_margin` are functions here and no calls of
//!   `AsyncCore`, and the cores need no journal of a depth-first run.
//! - **The bound needs no run of a machine**: it holds at each lawful moment (`bound_at`).
#![tactic(auto)]

mod booked;
mod deque_labels;
mod deques;
mod labels;
mod margin;
mod names;
mod numbered;
mod prefix;
mod ready;

pub use deques::{ahead_now, bound_margin, leaves, prefix_split};
pub use ready::{async_margin, entries};
