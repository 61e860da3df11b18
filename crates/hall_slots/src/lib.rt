//! The slots of a hall as they are in memory, the law of the hall over them, and what seats do with them: slots are taken, given back, opened and
//! closed.
//!
//! - Slot 0 is the list: the deques with their owners, the workers that are in, the waiting threads, the results, the closed periods, and the end
//!   of the run, if one is kept ([`ListSlot`]). Slot 1 is the pool with its moves ([`PoolSlot`]). Each further slot is the lane of one deque with
//!   the period that runs in it ([`LaneSlot`]). A seat's note ([`SeatNote`]) is in contracts alone. They are the slots of a row of turns
//!   (`turn_table`).
//! - [`HallRule`] is the law of the row: the law of the hall (`hall_machine`) over what the slots show, the count word and the notes of the seats,
//!   for each program that the key may be of; and what such values do not say of the real parts: which slot is of which kind, how many words and
//!   deques there may be, which threads are at their points.
//! - [`take_list`] and the calls beside it: a seat takes a slot, or is refused it.
//! - [`open_row`] makes the slots of a run that has done nothing (its one deque, without an owner, has the root alone), with a lane for each deque
//!   that there may be, and the first seat, of the worker 0, which has the places of all workers.
//! - [`enter`]: a seat with two places takes the list, names a worker there that has the smallest free number, puts the list back, and gives one
//!   of its places to a new seat, which is that worker's. [`leave`]: a seat that owns no deque takes the list, which names its worker no more, puts
//!   it back, and is joined into another seat, which then has its places too.
//! - [`count_action`]: the count word of a hall says how many actions its seats have begun. Below the limit the action is the seat's own, and at
//!   the limit the seat has found that the steps are spent. [`halt`] keeps a stop in the list, unless an end is kept; [`put_stopped`],
//!   [`put_same`] and [`put_answered`] are for a seat that holds the list already.
//! - [`see_end`] says whether an end is kept. [`close`]: a seat that has all places is the only one; if an end is kept and it owns no deque, the
//!   slots come out. A seat that was answered the end closes with it ([`close_at`]).
//!
//! Its theorem: each call keeps the law between any two atomic steps, and the law holds of the first slots. A seat that is refused is unchanged
//! except for the answers that it had, and a seat that has all places is never refused a slot. A worker that enters has the smallest number that
//! the list does not name, and a count never wraps. A stop has its cause; want of memory needs none ([`stop_laws::memory_needs_no_cause`]). What
//! comes out of a closed hall is of one run, which ended as the list says.
//!
//! # Why
//!
//! - **A lane keeps the worker of its period**, though the list says who owns the deque, since what a steal writes has a worker.
//! - **The law of the slots is truncated for each program**, because a thread names its next action only so. What is said of the parts in
//!   memory is not.
//! - **A seat's note is a struct of the code**, of which no value is made. So what a seat was answered keeps the fault at which a run finished.
//! - **The key of a row has the program as a snapshot**, for contracts alone.
#![tactic(auto)]

mod backs;
mod closed;
mod closing;
mod counting;
mod entered_lists;
mod entering;
mod event;
mod halting;
mod joining;
mod key;
mod lane_slot;
mod leaving;
mod list_calls;
mod list_slot;
mod lists;
mod opening;
mod pool_slot;
mod puts;
mod refused;
mod rule;
mod seat_note;
mod seeing;
mod slot;
pub mod stop_laws;
mod stopping;
mod takes;

pub use backs::{give_lane_back, give_list_back};
pub use closed::ClosedHall;
pub use closing::{close, close_at};
pub use counting::count_action;
pub use entering::enter;
pub use event::Event;
pub use halting::{halt, keep_in};
pub use joining::join;
pub use key::HallKey;
pub use lane_slot::{LaneSlot, Running};
pub use leaving::{leave, leave_in};
pub use list_slot::ListSlot;
pub use lists::{end_of, put_answered, put_same};
pub use opening::open_row;
pub use pool_slot::PoolSlot;
pub use refused::EnterRefused;
pub use rule::{HallPlace, HallRow, HallRule};
pub use seat_note::SeatNote;
pub use seeing::see_end;
pub use slot::Slot;
pub use stopping::put_stopped;
pub use takes::{take_lane, take_list, take_pool};
