//! The steal of an idle seat of a hall, once it holds the list.
//!
//! A thief that holds the list alone chooses a deque by a word ([`steal`]). It takes over a deque that nobody owns and that has one thread; from
//! any other it takes the bottom thread, into the next free deque, whose lane it takes too. If a further deque is one too many, or there is not
//! enough memory, it keeps this stop in the list. If it is refused a slot, it puts all back. The steps of a steal:
//!
//! - `choosing`: the thief tries the deques in reach, once round, in the order that the word picks. It takes the lane of each, and puts back
//!   the lanes of those that have no thread to steal.
//!   If an end is kept, the thief is answered this end. Otherwise it chooses, and holds the list and the lane of its victim.
//! - `thefts`: the thief made room before, so nothing is refused here.
//! - `puts`: the list goes back first, and from this step on the lanes show what they are to be, though the seat still holds them. So one put
//!   back decides the steal.
//!
//! It uses what a seat does with the list alone (`hall_slots`), and the laws of looks and of threads at their points (`hall_interleavings`). Its theorem:
//! what the call answers is what the looks of the seat show, from its take of the list on; the seat notes its steal or its stop; and the law of
//! the hall holds between any two atomic steps. The victim of the choice is in reach, and is what the steals ask for ([`robbing_laws`]).
#![tactic(auto)]

mod choosing;
mod parts;
mod prey;
mod puts;
mod refused;
pub mod robbing_laws;
mod stealing;
mod thefts;

pub use prey::{Prey, SeekRefused};
pub use puts::give_same_lane_back;
pub use refused::StealRefused;
pub use stealing::steal;
