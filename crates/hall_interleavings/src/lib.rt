//! What a hall shows at each time, however the steps of its seats are interleaved.
//!
//! Each thread that works for a hall has a seat, and does one step after another by it: an event of the machine, or a step that is none (a
//! put back of the same, a count, a stop that is found, kept or answered, a seat that enters, is split off, leaves or is joined). Here each
//! step is a constructor over plain values: what it needs of the slots and notes, what it writes, and what the seat notes. A sequence is
//! any list of such steps from a hall that begins, by any seats in any order.
//!
//! The crate has definitions and laws alone. It uses the running state (`hall_machine`) and threads (`thread_frames`). Its theorem,
//! [`run_laws::seats_make_one_run`]: however the steps are interleaved, the hall shows at each time a moment of one run, whose events are
//! theirs. The words in use are within the bound of that run.
//!
//! # Why
//!
//! - **No step of `hall_interleavings` asks anything of the run**: a stop is found by what the slots show (`MayFind`), and a give up that the
//!   rules ask for by the action. A free give up is an event of its own, so the other events of a seat never make it yield.
//! - **A put back that changes slots and notes may be two steps in a row.**
//! - **What an owner decides is by the open child whose ordinal is joined**, since plain values do not say that it is the newest.
//! - **Points are said of `Threads`, a function from deques**, for any slots that show them. How they move is by cases on the event.
#![tactic(auto)]

pub mod run_laws;
