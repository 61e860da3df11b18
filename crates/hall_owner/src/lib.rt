//! The next event of an owner of a hall, in one call.
//!
//! A seat that owns a deque lets its top thread reach its next action, and does the event for which this asks ([`act`]): the action itself,
//! a wait for a child, or a give up of the deque. It takes the slots that the event needs in one order, its lane first, then the list, then
//! the pool; counts the action once there is memory for it; does it to the parts; and puts them back, by which the event is decided. If a
//! slot is held by another seat, the run is over, there is not enough memory, or a limit of the run is met, it gives all slots back
//! ([`ActRefused`]). Between two events it may let its top thread go on for a while with its lane free in between ([`step_on`]). A seat may also
//! give its deque up though nothing asks for it ([`give_up_deque`]), leave with it ([`leave_deque`]), or give it up as the last seat of a hall
//! ([`close_deque`]).
//!
//! It uses the way to the action, the events themselves, and what is put back if none comes (`hall_actions`), and the count (`hall_slots`). Its
//! theorem: what a seat saw of its lane, the list, the pool and the count shows the one event that it was to do; it did this one, with just the
//! slots and the count that the event needs, and owns then the deque that the event leaves it. Or it did none, and what it saw shows why: a slot
//! that it needs was refused to it, an end is kept in the list that it needs, or it found a stop. If a look shows such a cause, it answers this
//! one. And the law of the hall holds between any two atomic steps. The name of an action is that of the action before which the top thread was.
//!
//! # Why
//!
//! - **An owner asks for memory in the parts that it holds, before its action is counted.** A list or a pool can only be asked for room by the
//!   seat that holds it. If there is not enough memory, the parts go back showing what they showed, and the count has not been drawn.
//! - **A seat takes its lane, then the list, then the pool.** It takes the list only if the event needs it, so owners that fork, allocate,
//!   release, fault, or end below a parent in the same deque never wait for it.
//! - **A failed call answers what the event would need first**: a slot that another seat holds, then an end that is kept, then the arena, then
//!   memory, then the count of actions. The arena comes before the count, since the count that was drawn is not given back.
//! - **A seat that leaves gives its deque up and takes its worker out of the list in one hold**, and each list and lane that is given up is made by
//!   one function (`give_up_in`). What differs is what the seat notes at the put back. If memory is lacking, the list keeps its stop there.
//! - **The place of the next child belongs to the seat** (`SeatMemory`). It is asked for before each event, though only a Fork uses it: the
//!   owner does not know its next action before it has run up to it, and there it holds its lane.
#![tactic(auto)]

mod acting;
mod laws;
mod leaving;
mod taken;
mod taking;
mod wanted;
mod yields;

pub use acting::{Acted, act};
pub use hall_actions::{ActRefused, SeatMemory, step_on};
pub use laws::one_event;
pub use leaving::{LastRefused, YieldRefused, close_deque, leave_deque, stop_then};
pub use yields::give_up_deque;
