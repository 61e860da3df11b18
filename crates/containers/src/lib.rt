//! Containers of which contracts see the content alone: a list that takes its memory first, and a value on the heap.
//!
//! - [`BoundedList`]: at most 4,294,967,295 entries. The small lists of this project (lines, labels, books, births, moves) are of this one type, so
//!   what is said of their length, their room and their entries is said and proved once. A list that was given room takes the next entry at its
//!   end without memory, and changes nothing else.
//! - [`Boxed`]: contracts see it as the value itself. So a large value that moves often, as a thread from deque to deque, is moved as a pointer,
//!   and what is said of lists of threads does not speak of lists of boxes. Each call returns and leaves the value that its clause says.
//!
//! It uses std alone. Its theorems are the clauses of these calls.
//!
//! # Why
//!
//! - One generic type, `BoundedList<T>` over a `Vec`, serves as every small list of the project (lines, books, births, the ordinals of a
//!   label). Its room is seen beside its entries, as `spare`, and no clause on the entries speaks of it. A list of 4,294,967,295 entries gets
//!   no more room: there, not enough room is "not enough memory".
//! - It has a ghost field for its length, so a recursive type cannot hold it: trees hold a `Vec`.
//! - **A thread is on the heap, and contracts see it as the thread.** It moves from its deque to the call that lets it act, through several
//!   calls, and back, and most of an action's cost was copying it. A `Box` of std ends that, but in contracts it is a record around its value,
//!   so that each clause on the threads of a list would speak of boxes. A `Boxed` has a model whose value is the value itself, so what is said
//!   of threads stays as it is.
//! - **A value has no empty place.** A place that may be empty was not taken, since the model has no value for a `Boxed` without one.
#![tactic(auto)]

mod bounded_list;
mod boxed;

pub use bounded_list::BoundedList;
pub use boxed::Boxed;
