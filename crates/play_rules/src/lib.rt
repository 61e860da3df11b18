//! The rules of play: who moves next, whom an idle worker steals from, and how a run ends.
//!
//! A run by workers on one thread is picked by a list of choices: with a choice `w` and `n` that may be picked, `w mod n`, `w + 1 mod n` and so on
//! are tried once round, and the first that can is taken. A worker can move if it is not idle; an idle one can if some deque in reach has a thread
//! to steal. In reach are the leftmost deques, as many as there are workers (G. Narlikar, SPAA 1999). The order in which they are tried is a choice
//! of this project. A run ends with its root, or by a stop ([`RunEnd`], [`Stop`]); a core, a ready list and a hall end theirs with the same values.
//!
//! It uses the list of deques (`deque_list`) and the seats of workers (`open_periods`). Its theorem: each answer is the first that passes, and None
//! comes exactly if none does.
#![tactic(auto)]

mod choice;
mod ends;
mod stop;

pub use choice::{can_move, first_mover, first_ready, picked, some_ready};
pub use ends::RunEnd;
pub use stop::Stop;
