//! A row of slots with turns, for the parts of a scheduler that threads share. A seat takes a turn by one compare and exchange, and has the
//! slot's value until it puts one back. Nothing here waits.
//!
//! The row stands on the kit's `atomic_table`, which has the single atomic steps. A user gives a `TurnLaw`, a fact over a key,
//! what all slots show, the count and the hands of all seats. A hand has the slots that its seat holds, each with the value that
//! it shows, a note of the user's, and every answer that the seat had. A slot that is out shows what was taken out of it, or what
//! its holder has set at a put back since, so one put back may change what several slots show, all at once.
//!
//! The theorem: over every order of the steps of all seats the law holds between any two steps, each turn word is the number of
//! hands that hold its slot, and none is above 1. `Turns::take`, `put_back` and `count` each leave a state in which this holds
//! with the hand that the seat then has, and `Turns::close` tells it of the last state, whose values it gives. In return each
//! call that steps asks that its step keep the law (`specs/Law.antt`). For laws over what is shown, counted and noted alone the
//! steps are proved in `proofs/NoteLaws.antt`. What the other slots of a seat show after a put back is picked, or is handed in with
//! `Turns::put_back_showing`.
//!
//! What a caller picks for a call, as the note that it leaves, is the call's last type parameter (`picks`): `Keep`, a type of
//! the caller's own, or `Brand`, for which the caller's proof picks at that very call.
//!
//! Seats may also share places (`specs/Places.antt`, [`lone_seats_are_free`]). Each seat notes how many it has, and a seat that has
//! none holds no slot. So if no other seat has places, a seat finds each turn free that it does not hold. A seat that was refused a
//! slot and puts back what it took before is what it was, but for the answers that it had (`IsBack` in `specs/Backs.antt`).
//!
//! # Why
//!
//! - **A turn word is a number of hands.** The definition of the word of a slot is how often the slot is among what the hands hold, and the row
//!   keeps it at most 1. So "1 exactly where one seat holds the turn, and no two seats hold one" is one equation and one bound. The lemmas
//!   `some_holder`, `word_of_held` and `one_holder` say it in words.
//! - **A hand of a joined seat stays in the list of hands**, empty, not `seated`, and with the law's `blank` note, since a table below keeps
//!   the view of each seat that it ever had. A law that adds something up over the hands gives `blank` the value that adds nothing.
//! - **A put back may bring any value for which the law holds.** It need not be the value that the slot shows: then it is a change like any
//!   other, and the law must hold with it. If a law fixes what was announced, the law itself refuses another value.
//! - **Picks are traits with ghost members only.** One call's pick sees its own arguments. What else a pick needs is made a parameter of a
//!   function of the caller's, or read from the hand, which every pick gets.
//! - **The note of the first seat** is a function of the law's blank note, so that `Keep` and `Brand` serve every law. The first view below has
//!   no note yet: `new` gives it by one load, before anyone else can have the row.
//! - **Only the proof knows which held slot is put back.** A seat carries its slots in order, and only the first of them can be written. So
//!   `put_back` loads the turn word once, and at that step the proof brings the slot to the front.
//! - **Turn words are eight words apart**, each in a line of the processor's cache of its own. Side by side, a seat that takes its own slot
//!   would take the line from the holder of another one, and slots with small numbers are taken by everybody.
//! - **`close` takes no memory**, since the row keeps the list in which its values came, empty and with its room. So a row can be shared by
//!   threads if its values are `Send` and `Sync`.
//! - **For a row of more than 4,294,967,295 slots there is not enough memory**, so that each slot has a number of 32 bits.
//! - **`put_back_showing` takes the values that the other slots show**, since a pick sees only the arguments of its call. Laws over what is
//!   shown and noted see the count word too.
//! - **Lost turns.** A seat that is dropped keeps its turns, and so does one that lives on: `close` then answers `StillHeld`.
//! - The crate names the library `core` beside the table's, since the row that a closed table gives is a type of `core`.
#![tactic(auto)]

mod hand;
mod held;
mod law;
mod look;
mod opening;
mod picks;
mod place;
mod place_laws;
mod plays;
mod ruled;
mod still_held;
mod turn_seat;
mod turns;

pub use hand::Hand;
pub use held::Held;
pub use law::TurnLaw;
pub use look::Look;
pub use picks::{Joins, Keep, Notes, Opens, Puts, Splits};
pub use still_held::StillHeld;
pub use turn_seat::TurnSeat;
pub use turns::Turns;
