//! What an event does to the list of deques and to the periods of a scheduler.
//!
//! Whoever does an event has taken the top thread out of its deque and let it act; here it is put back, and what it did is written into the
//! worker's period. The items of the deques are of any type: what they show of threads is a function that contracts speak of, so nothing here
//! knows how a thread runs. [`ListPart`] has what an event writes outside the lanes, for a scheduler that holds its parts apart: the order of
//! the deques with their owners, the threads that wait, the kept results and the closed periods.
//!
//! It uses the list (`deque_list`), the periods (`open_periods`), the map of threads (`thread_map`) and the parts that they show
//! (`moment_shown`). Its theorem: each call does on the parts what the event of its action does. Beside it each call says which deques are in the
//! list after it, and which deque each worker has. A call on a [`ListPart`] changes the place of one deque, adds one closed period, and leaves
//! the rest as it is.
#![tactic(auto)]

mod acted;
mod aside;
mod left;
mod list_part;
mod stolen;

pub use acted::{put_back, put_back_and_give_up, put_both_back};
pub use aside::set_aside;
pub use left::{end_above, end_and_leave, end_and_wake, give_up, suspend};
pub use list_part::ListPart;
pub use stolen::{steal_beside, take_over};
