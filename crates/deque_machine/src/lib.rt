//! The machine of workers and deques over a depth-first list, and the bound on its memory.
//!
//! - Books: what each period ran, in its order, an action being its place in the list. What is done is what the books have. Books are lawful if
//!   nothing is done twice or too early, each period keeps within the quota, and none goes on after a Dummy. A period is ahead if it ran an action
//!   after the prefix, the longest first part of the list that is all done. No choice of a worker and no order of threads is in them.
//! - The machine: a moment has the deques from left to right, each with its threads from top to bottom, the waiting threads, and the books of all
//!   periods. The machine says which events may come at a moment, one case each: a steal of a bottom thread, the next action of a top thread, a
//!   thread that has to wait, and a deque that is given up. Play is the one run of the machine that a list of choices picks.
//! - `step`: the machine computed, a function of a moment, a worker and an event. Worked runs are checked by it.
//!
//! Its theorem: at each moment of each run the words in use are at most the depth-first peak, and two quotas for each period that is ahead
//! ([`laws::bound_always`]); so the high-water mark is at most the peak, and two quotas for each marked period ([`laws::marked_bound`]). It is said
//! of the list alone: no program, memory or thread of a processor is in it.
#![tactic(auto)]

pub mod laws;
