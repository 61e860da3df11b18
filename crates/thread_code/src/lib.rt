//! The code that threads run: the node table of a program, and the flat code made of it.
//!
//! [`Code::of`] makes it of a node table. It is made once for a program, is lent to all its threads, and does not change.
//!
//! It builds on the node table (`node_table`), on frames (`thread_stack`) and on the flat code of a program (`flat_program`).
//!
//! Its theorem is the contract of [`Code::start`]: at the place that it names there is the code of the frame (`BeginsAt` of `flat_program`).
//! It holds of each code by how it was made, so a thread that asks for a start needs to know nothing of that. What a program means is said by
//! the node table alone (`code_shown`), so whoever does not run threads knows nothing of flat code.
#![tactic(auto)]

mod code;
mod frames;
mod reading;

pub use code::Code;
pub use flat_program::FlatList;
