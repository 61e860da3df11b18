//! How the top thread of an owner reaches its next action, and the events of an owner, from the parts that it took to its put back.
//!
//! [`come_to_next`] takes the lane of the seat's deque, asks for the memory that the next event needs in the lane and in the seat, takes
//! the top thread out, and lets it run its plain statements up to its next action. If there is not enough memory, the lane goes back, and
//! the seat notes that stop. [`put_together`] puts the thread back on its lane. [`make_room_to_close`] and the calls beside it ask for
//! memory in the list and in the pool. [`step_on`] lets the top thread go on for a while without an event, so that its lane is free in between.
//!
//! An event is done to the threads of the lane, the period that runs there, the top thread before its next action, and the pool or the list if
//! the event needs them; then they are put back (`hall_parts`): the seat notes the event, and holds nothing. There is a call for each set of
//! slots, which has the action or the event as an argument: [`act_own_join`] for the lane alone, [`act_with_pool`], [`act_with_list`] (a
//! [`ListEvent`]), and [`act_with_all`] for the list and the pool (a [`WholeEvent`]). If the event does not come, the owner puts back what it
//! took, which shows what it showed, perhaps with more room. If an end is kept in the list, the seat is answered this end ([`return_answered`]).
//!
//! [`laws`] say what an owner knows of the parts that it took, in each state of the row that meets the law: a thread is on top, at its
//! point, and a period runs; the numbers of both are within the bounds that the calls on them ask for; its deque is in the list; and what the
//! list has of the child that its top thread joins, or of the parent of one that ends. They say too whether the quota covers an action, and which
//! stop the seat may note.
//!
//! It uses the way of a thread to its action (`thread_actions`), which threads are at their points (`hall_interleavings`), what an event writes
//! and how a seat puts it back (`hall_parts`), and the laws of the running state (`hall_machine`). Its theorem: the thread is at its point before
//! the action that the depth-first list has for it, nothing is done yet, and there is memory for what it does; each event and each put back keeps
//! the law of the hall between any two atomic steps, and the seat holds nothing then. A put back without an event leaves the moment of the hall,
//! and a stop that it notes has its cause.
#![tactic(auto)]

mod advancing;
mod answers;
mod at_next;
pub mod laws;
mod memory;
mod refused;
mod results;
mod rooms;
mod stepping;
mod with_all;
mod with_list;
mod with_pool;

pub use advancing::come_to_next;
pub use answers::return_answered;
pub use at_next::{AtNext, put_together};
pub use hall_parts::{Noting, give_still_back, put_all, put_list_and_lane, put_pool_and_lane};
pub use memory::SeatMemory;
pub use refused::ActRefused;
pub use rooms::{make_room_for_move, make_room_to_close, make_room_to_leave, make_room_to_wait};
pub use stepping::step_on;
pub use with_all::{WholeEvent, act_with_all, make_room_with};
pub use with_list::{ListEvent, act_with_list, make_room_for};
pub use with_pool::{act_own_join, act_with_pool};
