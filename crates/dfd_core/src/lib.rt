//! The core of a scheduler: a run of a program by workers on one thread, one event at a time.
//!
//! The ready threads stand in a list of deques, after DFDeques(K) (G. Narlikar, "Scheduling Threads for Low Space Requirement and Good
//! Locality", SPAA 1999). A worker that owns a deque lets its top thread do its next action, or wait, or gives the deque up where the
//! quota of its period is spent; an idle one steals. A [`Core`] holds the run, [`Core::step`] lets one worker do one event, and [`play`]
//! lets the words of a [`Choices`] pick who moves and from whom a thief steals, until the run ends. [`Core::give_up`] lets a worker leave
//! its deque at any other time, too; [`Core::into_end`] and [`Core::into_parts`] take a core apart, behind its end and before its first
//! event.
//!
//! It stands on the step of a worker that owns a deque (`worker_step`), on that of an idle one (`worker_step`), on what a scheduler
//! holds at a moment, and how a run begins and ends (`scheduler_state`). Its one theorem: whatever the program, what the core holds stands at a moment of a run of the
//! machine; each step is the event that the rules of play want of the worker, or meets the stop that they name; and a run that finishes
//! has the fault and the lines of the depth-first run.
//!
//! # Why
//!
//! - **A core is a type with its facts in ghost fields** (it is sound, it can go on while no end is kept, it is somewhere), so callers bring no
//!   proof to a step.
//! - **The finish is kept as soon as the result of the root is.** The clause of a step says both ways whether the root has ended. The result is
//!   looked for only after an action of the root: by the rules of the machine no other event ends it.
//! - **A run that has ended stays as it is**, whatever stopped it: no event is tried again.
//! - A turn draws one word for who moves, and a second one only if this is an idle worker. `ListChoices` gives 0 after its words.
//! - `play` has room for five turns an action that may be done, two a worker, and one more. A law of the machine says that no run without a
//!   free give up is as long, from whatever lawful moment on, so there is no answer for a run without end.
//! - **A core is at a moment of any run of the machine**, and not only of one without free give ups: an owner may be asked to give its deque up
//!   at any time (`Core::give_up`). That a play has none is said of the play: each of its turns is what the rules ask for.
//! - `give_up` works after the end of a run too, so that a run whose workers still own deques can be taken apart (`into_end`). A kept end is
//!   never replaced: "not enough memory" becomes the end only if there is none.
//! - **A play without enough memory ends early, and can go on.** Its clause names the events that came, the worker whose turn it was, and the
//!   words that are left to draw. So a play can be recorded: what goes on from it is the play (`fronts_go_on` of `deque_machine`).
//! - `into_end` and `into_parts` hand out plain values with the facts that go with them. The result of the root is that of the whole run, and
//!   the books and moves are those of the run. The one lane of a run before its first step has the first id and holds only the root, which has
//!   done nothing.
//! - **`CoreParts` has the order of the one deque, its id and its lane apart**, and not a list of deques. Workers who each hold a lane share an
//!   order, and a list would have to be taken apart again. The quota, the workers and the limits come with it, so no part of the core is lost.
//! - **`Core::list` lends the deques as they are kept**, with threads in boxes. A contract sees a `Boxed` as the thread in it, so what is said
//!   of the list is said of threads.
//! - **`Stop` of `play_rules` and `thread_frames::ArenaFull` have no `Display`**: no clause would say what a text of theirs is, and the program
//!   writes the lines of stops itself.
//! - **`Stop` and `RunEnd` are a crate of their own**, `play_rules`, below every scheduler: the core, a hall of threads and a ready list end
//!   with the same values, and none of them has to use another one for them. What a waiting thread, a kept result and the root look like to the
//!   laws (`Kept`, `Roots`) is in `thread_frames`, with the threads. A crate that uses the core for one type is proved again after each change
//!   of the core.
#![tactic(auto)]

mod events;
mod laws;
mod parts;
mod player;
mod run;
mod turn;

pub use laws::cores_are_lawful;
pub use parts::{CoreEnd, CoreParts, root_of};
pub use play_rules::{RunEnd, Stop};
pub use player::{most_turns, play};
pub use run::Core;
pub use scheduler_state::{Choices, ListChoices, OutputFail, Stepped};
pub use turn::{Turn, draw_turn};
