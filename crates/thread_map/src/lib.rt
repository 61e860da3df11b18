//! A map from the ids of threads to values: the threads that wait, and the results that are kept.
//!
//! The threads that wait, and the results that are kept until they are asked for, are looked up by a thread's id.
//! A [`ThreadMap`] finds, lends, takes and puts one in a time that does not grow with their number. Its memory is had
//! first: after [`reserve`](ThreadMap::reserve) one more value is put without memory.
//!
//! The crate stands on the hash map of std and on the ids of `dag_order`. Its one theorem: a map is seen as the list
//! of what it keeps, of which no two ids are the same, and each call changes what is kept under its own id alone.
//!
//! # Why
//!
//! - Waiting threads and kept results are found by the thread's id in a hash map of std: memory for one more is taken first, and then putting
//!   it needs none. Contracts see the list of what is kept, of which no two ids are the same.
//! **A result is kept before it is handed over.** At an End the machine lets the parent run next if it is directly below or waits. The parts
//! keep the result first in each of the three cases, and hand it over in a step that is no event. So the three cases of an End have one law for
//! results, and the Join of a child whose result was kept needs no law of its own.
#![tactic(auto)]

mod laws;
mod thread_map;

pub use laws::value_written;
pub use thread_map::ThreadMap;
