//! What a thread has printed, and its first fault, in depth-first order.
//!
//! A thread prints one number after another, until a fault ends its work; and behind the Join of a child all that the child left stands
//! before what the thread did since its fork. [`Told`] keeps this in pieces that are joined in constant time, and [`Told::lines`] puts them
//! into one list at the end.
//!
//! The layer stands on names of threads and lines, and on the depth-first run as a definition. Its one theorem is that what is told of the
//! items of a run is just their lines before the first fault, and their first fault, whatever parts it was joined from.
//!
//! Of more than [`language_limits::GREATEST_COUNT`] lines none is kept, and memory is said to be wanting.
//!
//! # Why
//!
//! - Parts of the output are linked lists, which join in constant time and are dropped without recursion. They are put into one list once, at
//!   the end.
//! - A part with a fault takes no later part in, since nothing after the first fault is printed.
//! - Lines are lost exactly where they are more than 4,294,967,295, and "not enough memory" is the answer to who asks for them.
#![tactic(auto)]

mod told;

pub use told::Told;
