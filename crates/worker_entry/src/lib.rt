//! A hall of threads, and the seats by which they work in it.
//!
//! A [`Hall`] is the slots of a scheduler with its terms, beside its program; a [`Seat`] is the right of one worker to work there. A hall is made
//! of a core that has done no step ([`Hall::new`]), with a seat for the worker 0, which has the places of all workers. A worker enters by a seat
//! that has two places, steals, acts, goes on without an event, gives its deque up, keeps the stop that it found, and leaves into another seat.
//! A seat that is to steal may hold the list first ([`ListHeld`]). The seat that has all places closes the hall.
//!
//! It uses what a core is taken apart into (`dfd_core`), the steal of a thief (`hall_thief`), the events of an owner (`hall_owner`), and what
//! a seat does with the list (`hall_slots`). Its theorem: for each core that has done no step there is a hall with its program, its quota and its
//! terms, whose law holds; what a seat says of itself (its worker, its places, its deque, the stop that it found) is what the law of the hall
//! says of it; and what a closed hall gives is of one run.
//!
//! # Why
//!
//! - **A held list is a value that cannot be dropped** (`ListHeld` has no `Drop`). If a seat could be dropped with the list, every other worker
//!   would stop, so the compiler asks for a steal or a put back.
//! - **A seat that had found a stop may hold the list.** Its steal puts the list back and answers this stop, as a steal in one call does, also
//!   if an end is kept there.
//! - **An owner leaves by one put back**: it takes its lane and the list, gives its deque up, takes its worker out of the crew and keeps its stop
//!   there, and all of this shows from the put back of the list on. So a seat that is refused a slot comes back as it was.
//! - **A give up that nothing asks for runs no statement of the thread on top**, so a worker whose run was stopped can leave. Only a worker
//!   that found too little memory keeps its deque: its top thread may be in the middle of a statement.
//! - **`give_up` is refused where an end is kept, the give up of `leave` and of `close` is not** (`leave_deque` and `close_deque` of
//!   `hall_owner`): a worker has to leave also then.
//! - **If there is not enough memory, `give_up` stops as `act` does**: the seat notes the stop, which its next `halt` keeps in the list, or its
//!   `leave`.
//! - **A worker that has not enough memory to leave keeps its stop by the same put back**, and is answered the end that is kept then. So the
//!   contract shows that one is. A seat that had found this before takes the list alone, as a `halt` does, since its lane is not to be given up.
//! - **`leave` asks nothing of the places of the two seats.** No call tells of two seats at once that they have no more places than there are
//!   workers, so the clause says how many places there are with the bound that is never met (`places_with` of `hall_slots`), and the code has it
//!   too. A caller that has kept the sum of its seats knows that they are those of both.
//! - **A hall is closed also by a seat that owns a deque.** It looks for the end in the list that it has taken, and gives the deque up in the same
//!   hold. So where none is kept the moment of the hall is what it was, and the end that it was answered is the one of the run.
#![tactic(auto)]

mod calls;
mod closing;
mod ends;
mod entry;
mod hall;
mod leaving;
mod opening;
mod owners;
mod refused;
mod seat;
mod thieves;

pub use closing::Closing;
pub use dfd_core::Core;
pub use hall::Hall;
pub use refused::{CloseRefused, EnterRefused, EventRefused, LeaveRefused};
pub use seat::Seat;
pub use thieves::ListHeld;
