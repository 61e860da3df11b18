//! What holds of the answers of `dfd`, by the definitions that its contract cites.
//!
//! A caller gets laws on a command and the bytes that it reads: it has one answer; at every moment of its play the words in use are within
//! the bound; the play ends, and it finishes if nothing runs out; and `verify` accepts the trails of plays.
//!
//! The crate has laws alone. It uses `dfd_run`, whose definitions they are about, and the laws of what these are made of: the two machines
//! (`deque_machine`, `ready_machine`), runs by threads (`hall_threads`), expansions (`loop_expand`) and trails
//! (`trail_text`, `trail_check`).
//!
//! Its theorem is [`moments_are_bounded`], with [`async_moments_are_bounded`] for a ready list and [`run_moments_are_bounded`] for runs in
//! threads.
//!
//! # Why
//!
//! - **Laws on what a call answers are in a crate above the call.** They are about its definitions and use none of its code, and no code uses
//!   them. So the program is built without them, and a new law leaves the proofs below it as they are.
//! - **What holds of `play` and of `async` alike is one definition**, with the kind of play as an argument: the relation of its runs (`OfEach`,
//!   `AllEnd`), how a run reaches a moment (`BoundStays`), or the rules of its turns and events (`StopsLate`, `FillsLate`).
//! - That a command has one answer is a law with a function of its own, so that a definition that allowed two would be refused. `run` is left
//!   out of it, and only of it: that there is an answer holds for `run` too, since each play is a run that threads may make.
#![tactic(auto)]

mod laws;
mod make_laws;
mod trail_laws;

pub use laws::{
    a_command_has_an_answer, a_command_has_one_answer, actions_suffice, arenas_stop_late,
    arenas_suffice, async_actions_suffice, async_arenas_stop_late, async_arenas_suffice,
    async_lists_never_fill, async_moments_are_bounded, async_of_one_lasts_at_the_peak,
    async_of_one_reports_the_peak, async_of_one_stays_low, async_plays_end,
    async_plays_with_room_finish, async_reports_are_bounded, async_statuses_with_room,
    commands_have_ranges, deques_suffice, loops_are_plays, moments_are_bounded, plays_end,
    plays_with_room_finish, recorded_trails_are_accepted, reports_are_bounded,
    run_arenas_stop_late, run_arenas_suffice, run_deques_suffice, run_moments_are_bounded,
    run_reports_are_bounded, run_statuses_with_room, statuses_with_room, summaries_are_bounded,
    verified_trails_are_bounded,
};
pub use make_laws::{made_sources_are_accepted, made_summaries_add_up, makes_meet_no_fault};
