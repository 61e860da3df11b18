//! One step of a worker, at any moment of a run of the machine.
//!
//! A worker that owns a deque lets its top thread do its next action, or wait, or gives the deque up because the quota of its period is spent
//! ([`step_of_owner`]). An idle worker steals the bottom thread of the first deque in reach that has one to steal, as a choice picks it
//! ([`step_of_thief`]): a deque that keeps other threads stays, and the thread gets a new deque to the right of it; a deque without an owner that
//! holds this thread alone is taken over. The rules are those of DFDeques(K) (G. Narlikar, SPAA 1999). All memory that a step may need is taken
//! before anything moves.
//!
//! It uses the actions of a top thread (`thread_actions`), the changes of the list (`list_changes`), the choice of a victim (`play_rules`) and what
//! a scheduler holds (`scheduler_state`). Its theorem: whatever the program, the step is the event that the rules of play want of the worker, or it
//! meets the stop that they name; and None comes exactly if there is nothing to steal.
//!
//! # Why
//!
//! - **All memory of an event is asked for first**, before a thread is taken out: room in its deque, in the period, for a move, for a waiting
//!   thread and for a result. One event takes only some of these. A steal asks for its deque and its period. So what stops an event has changed
//!   nothing but memory.
//! - **What may refuse an action is tested in one order**: the quota, after which a worker leaves whatever the arena has, then the arena, then
//!   the limit of actions. A give up and a wait are no actions, and nothing refuses them.
//! - "Not enough memory" on the way to the next action leaves the thread in the middle, and it goes back into its deque. The moment is that
//!   before the event.
//! - A deque without threads is no case: what is at a moment of a run is in lawful order, and there no deque is empty.
//! - **The limit of deques is tested before memory is asked for**, in the order of the machine's stops. So a steal that lacks memory says that
//!   one deque more is allowed, or that none would come, and the step and the play above it hand this on.
//! - A thread's count of actions needs no test: a thread has done at most as many actions as are done in all (`threads_count_within`), and
//!   these are within the limit.
//! - **What a worker does is decided before anything moves** (`decide`): the next action, with what it uses of the quota, or a give up, or a
//!   wait. It is `readiness_of` and, at a child without a delivered result, the kept results. So the arena and the limit are tested in one
//!   place, and each action is named, done, counted and noted in one place. A function for each action does it and says whether it is a move.
//! - **The top thread is taken out by one function**, `take_top`, with memory for whatever event comes. Its contract says once that, with the
//!   thread on top, all is held as before.
#![tactic(auto)]

mod acts;
mod decisions;
mod ends;
mod leaves;
mod owner;
mod refusals;
mod results;
mod thief;
mod tops;

pub use leaves::give_up_deque;
pub use owner::step_of_owner;
pub use thief::step_of_thief;
