//! What a scheduler holds between two events, at which moment of a run of the machine it is, and how a run begins and ends.
//!
//! A scheduler holds deques of threads, waiting threads, results of ended threads, the periods, the pool and its moves ([`Scheduler`]). The core
//! of the deques and the ready list hold the same, and differ in which events come. What does not depend on that is here: what is held at the
//! start ([`scheduler_of`]), the words that pick who moves ([`Choices`]), what a step answers ([`Stepped`]), the end that is kept after an event
//! ([`end_behind`]), and how many open periods are marked ([`open_ahead`]).
//!
//! It uses threads as parts (`thread_frames`) and the laws of the machine's events (`moment_shown`, `moment_laws`). Its lemmas, for the proofs of
//! the steps above: if the parts are at the moment of a run, and a worker did on them what the machine does, they are at the moment of the run
//! with this event more, and it is the event that the rules of play want of the worker. The start is sound and is at the opening moment. Once the
//! root has ended its result is kept, with the fault and the lines of the depth-first run. The contracts of `worker_step`, `worker_step` and
//! `dfd_core` state this; the calls here have the parts of it that concern one value.
//!
//! # Why
//!
//! - **What is held is plain data**, `Held`: contracts and laws speak of lists and numbers, also of what is held with a thread on top that a
//!   body has taken out (`held_under`). The order of waiting threads and of results does not matter, and memory is no part of it.
//! - **Contracts speak of every run and moment at which a scheduler may be** (`HasRun`), and no run is stored. That it is at some moment,
//!   whichever program it is that the table is of, is part of what is sound (`IsSound`), and is only known to be. Each step is then said for
//!   all such moments.
//! - **Where parts stand is said of plain parts** (`StandsAt` of `moment_laws`): parts, words, how many periods were begun, and moves, at a
//!   lawful moment. The laws of each event are over it, and know neither a run nor a table of periods. `HasRun` adds what the core has besides:
//!   the moves of its events, which sum up to the words in use, and the count of actions. It does not say that the events are a run of a
//!   machine: after the deque of a Fork is cut in two they are a run of the ready list, and no run of the machine of deques. Each core says for
//!   itself which run they are (`IsAtMoment`).
//! - **A waiting thread is kept under the id of the child that it waits for.** So the End of this child finds it at once, and it is the parent
//!   of that child.
//! - **A result is kept under the id of its thread**, from the End to the Join, where the parent does not stand directly below. If it does, the
//!   parent runs next and has the result at once, so that kept results are touched only where the parent is elsewhere. For the machine this is
//!   an End that keeps its result, and then a result that is handed over, which is no event: nobody sees the moment between.
//! - That each thread is at its point (`CanGoOn`) is separate from what is sound: after "not enough memory" what is held is still sound, and a
//!   thread may be at no point.
//! - **What does not depend on the machine of a run is below its cores**: the start, the words that pick, what a step answers, the end that is
//!   kept after an event, and the count of marked periods. Their laws are over `HasRun`, so both cores cite them.
//! - `Stepped` serves both cores: to take the leftmost ready thread is the answer `Stole`, with the deque and the number of the period.
#![tactic(auto)]

mod begun;
mod choices;
mod ends;
mod event;
mod marks;
mod scheduler;
mod stepped;

pub use begun::scheduler_of;
pub use choices::{Choices, ListChoices};
pub use ends::{end_behind, end_without_memory, is_finish};
pub use event::Event;
pub use marks::open_ahead;
pub use scheduler::Scheduler;
pub use stepped::{OutputFail, Stepped, told};
