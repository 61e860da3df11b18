//! Workers in threads of the system, each of which tries one thing after another until its work has ended.
//!
//! A scheduler whose parts are shared by threads lets each of its workers try an event, again and again. A try may find that a part is held
//! by another worker, or that there is nothing to do. What a try is, is the scheduler's ([`Works`]); here are the loop around it ([`work`]),
//! a worker with its end ([`Member`]), one thread for each member of a crew ([`work_all`]), the pause after tries that did nothing, and the
//! gate that a test may put before each try ([`Gate`]).
//!
//! The crate stands on std alone. Its one theorem: whatever the other threads do, a worker whose loop returns has ended with what the loop
//! returned, and it is the same worker of the same shared parts. That a loop returns is not claimed.
//!
//! # Why
//!
//! - **The loop of a worker knows nothing of a hall.** A hall is a table, a program and seats; `Works` asks for one try at a time over the
//!   first two. So the threads, the pauses and the gate are proved once, and with type parameters alone. Whether a real table and a real
//!   program may be shared by threads is then asked one at a time; a search for both together does not end.
//! - **A worker that has work and finds a part held waits for 64 turns of the processor at first and for 4,096 at most** (`wait_for_part`), and
//!   gives the processor away in between. The holder then does several events before it is asked again. A part that changes hands at each
//!   event has its memory moved from core to core each time, which costs more than the event.
//! - **A worker without work pauses after each try, up to 32 turns; then it gives the processor away; and after 250 tries in a row it sleeps**,
//!   50 microseconds at first and 3.2 milliseconds at most. With more workers than processors, those with nothing
//!   to do would otherwise keep those with something to do from running, and a serial program by four workers took 2.4 times the processor
//!   time that it takes by one. A sleep has an end of its own, so no worker has to be woken.
//! - **The 250 tries between two sleeps take longer than a worker holds its lane** (`TURNS_AT_ONCE` of `hall_threads`). A thief that was awake
//!   for less would find the lane of a long branch held each time. In a model, sleeps without this look took 257 batches until a steal.
//! - **A worker that gives its lane back for a while leaves it free for 100 turns of the processor** (`FREE_TURNS`). With none it took the lane
//!   back some 400 times before a thief that was always looking had it; with 100 once, at about a thirtieth of the time.
#![tactic(auto)]

mod crew;
mod gates;
mod loops;
mod member;
mod pause;
#[cfg(test)]
mod tests;
mod works;

pub use crew::{WorksToEnd, work_all};
pub use gates::{FreeGate, Gate};
pub use loops::work;
pub use member::Member;
pub use works::{Tried, Works};
