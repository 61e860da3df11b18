//! The list of deques, from left to right in depth-first order.
//!
//! Ready threads stand in deques, and the deques stand in one list, from left to right in depth-first order.
//! A worker owns at most one deque and uses its top; a thief takes the bottom item of a deque into a new
//! deque immediately to the right of it (G. Narlikar, "Scheduling Threads for Low Space Requirement and Good
//! Locality", SPAA 1999).
//!
//! [`List`] is the whole: an [`Order`] of deques with their owners, and a [`Lane`] of items for each. The two
//! parts can be used apart, where several workers hold a lane each. A call on one lane, and what is asked at a
//! rank, takes the same time however many deques and items there are; inserting and removing a deque, and
//! finding its rank, walks the order.
//!
//! The crate stands on the kit's `slab`, which stores the lanes. Its one theorem: a list is seen as a list of
//! deques, each call changes just the places that its contract names, and the other ids stay.
//!
//! # Why
//!
//! - The items of a lane are in order from top to bottom. A lane is a queue of std with its front at the top, so a steal takes the bottom item
//!   without moving the rest.
//! - `List<T>` asks nothing of its items: no call compares them. That the labels in it rise is the machine's law, over the list that contracts
//!   see.
//! - **Two refusals**: `InsertRefused` of a list says that it is full or that there is not enough memory. An `Order` has only the first cause,
//!   so its `OrderFull` says no more.
//! - The new id is found among marks of the ids in use, in one walk. Ids, marks and the order are made at the start for the number of deques
//!   that is allowed, and only a new lane takes memory later.
//! - `top_mut` lends the top item: the list ends with the item that was written.
//! - **A lane that is given up is the next new one**: each steal of a last thread gives one up and needs another. What is kept is in a type of
//!   its own, whose one fact is that it has no items. So neither the view of the list nor its invariant speaks of it.
//! - **An `Order` has all its memory from the start**, for as many deques as are allowed, and refuses only if it is full. The next id is known
//!   before it is given. So a slot that holds only an order never needs memory.
//! - A place in the order is found by its rank, and asked whether it is ready, in constant time, so that the choice of an idle worker costs the
//!   deques in reach.
#![tactic(auto)]

mod deque_id;
mod insert_refused;
mod lane;
mod lanes;
mod laws;
mod list;
mod order;
mod place;
mod search;
mod spare_lane;

pub use deque_id::DequeId;
pub use insert_refused::InsertRefused;
pub use lane::Lane;
pub use laws::{inserted_then_removed, one_smallest_free, top_written};
pub use list::List;
pub use order::{Order, OrderFull};
pub use place::Place;
