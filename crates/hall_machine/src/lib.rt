//! The law of a hall, in which the same scheduler runs in several threads over one table of slots.
//!
//! The list (places of deques, waiting threads, results, closed periods) is one slot, the pool another, and each deque has a slot of its own
//! for its threads and the period that runs in them. Each thread that works for a hall has a seat, which notes what it holds and what it
//! was told.
//!
//! The definitions say which parts of a scheduler such slots show, by which steps of which seats they came to a moment of the machine
//! (`specs/Values.antt`, `specs/Standing.antt`), what each event writes into them (`specs/Events.antt`), and what the notes of the seats, the
//! count word and the end say of it (`specs/Crew.antt`, `specs/Seats.antt`): whose deques are whose, how far the count word is from what is
//! done, that a stop which was found has its cause, and that no give up was free if no seat has yielded. Both together are the running state
//! of a hall (`specs/State.antt`). [`laws`] has what it gives; that each event keeps it is `events_go_on` of `hall_interleavings`.
//!
//! The crate has definitions and laws alone, over plain values: no table, no thread, no handle. It uses where a scheduler stands
//! (`moment_laws`). Its theorem: a hall begins in a running state, and each event of a seat leads from a running state to a running state by
//! one event of the machine for the worker of its seat; a stop that a seat finds has its cause; and a hall that is closed gives the books and
//! the moves of one run.
//!
//! # Why
//!
//! - **What is said is about a record `Hall`** (list, pool, lanes), not about a list of slots: `hall_of` is the only link. What a slot means is
//!   a function of that slot, except whose period runs in a lane: the list says it, by the owner of the deque (`run_by`).
//! - **The run is a list of steps, the newest first**, each with its seat, worker, period, event and what the seat was told. So a prefix of a
//!   run is a tail, and "at some moment of this run" is a recursion. `run_of` gives the run of the machine.
//! - **The number of its period is on each step.** So what a period ran is the names of the steps with its number (`RanBy`), and no event needs
//!   to know of other seats.
//! - **Where a hall is, is `StandsAt` of `moment_laws` over `showing_of`**, with the moves of the run of its steps. `HallStands` adds what is
//!   of slots alone: each deque has its lane, the numbers of periods differ, each period ran what was done in it.
//! - **Laws are over a worker at work** (`IsAtWork`): the place of its deque in the list, and its lane cut into top thread, others and period.
//!   An owner always is (`owners_are_at_work`).
//! - **Actions in the own lane are one law** (`ActsInLane`: an Alloc, a Release, a Fault, a Fork, and a Join of a result that was handed over),
//!   since they write the same slots. Its premises are the records of `list_changes` (`DidAlone`, `DidJoin`, `DidFork`).
//! - **The order of waiting threads and of results is free in what is written**: a law takes any permutation, so the maps that keep them need
//!   no law of their own.
//! - **A result that is handed over at once is a hall between, which nobody sees**: an End above its parent keeps the result and hands it over,
//!   and the Join of a kept result is a handing and then a Join.
//! - **A closed period goes to the end of the closed ones**, as books keep them.
//! - **Seats are counted, not listed**: how often the list names a worker is how many seats count for it (`stands_for`). So neither a seat that
//!   left nor one that enters needs an exception.
//! - **A worker enters by the list first, and then by a split**: while it enters, the list names a worker who has no seat yet, and the seat
//!   that enters it counts for two. A put back changes only the note of the seat that makes it. So a seat that was split off before could not
//!   learn in that step that the list names it.
//! - **What a seat was told is tied to the run by the number of the seat** (`told_to`), not by its worker: workers are used again, and seats
//!   are not.
//! - **The count word is two facts about numbers** (`counted`, `above`): sums over seats, so that each step is one equation.
//! - **What seats do besides events changes notes, and the crew and the kept end of the list** (`with_crew`). One lemma (`one_noted`) serves
//!   entering, finding, answering and leaving. A stop of a steal is found and kept in one put back: two of these laws, with a hall between them
//!   that nobody sees. So is the leave of an owner: a give up, and then the leave of an idle seat.
//! - **Each worker of the crew has a number below that of the workers** (`numbered`), since a steal needs it.
//! - **An event is taken as a whole**: slots, seats, count word and end are in one law. Its conclusion (`GoesOn`) has the run of the state
//!   before as its tail. So laws compose, and a moment of the run stays one.
//! - **The End of the root is an End that leaves, and then the kept end**, in one put back.
//! - **The cause of a spent limit is one inequality of the machine**: what is done and one action for each thread of a deque are in the list
//!   (`AllAreWithin`). Seats that hold counts own different deques. So if a seat finds the limit spent, the list has more actions.
//! - **That the book of a period is what its seat was told** is proved along the steps, and no event has to keep it: a step is in the period of
//!   its seat's last steal, and no two seats begin one period.
//! - **Points of threads are stated over threads of any type.** An excuse is by the owner of the place: the owner's seat found that memory was
//!   wanting, or nobody owns the deque and an end is kept.
#![tactic(auto)]

pub mod laws;
