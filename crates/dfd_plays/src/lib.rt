//! What each command but `run` does, over any source and any sink, and what each command is to answer.
//!
//! [`serve`] takes a command, reads its program from a [`Source`](byte_streams::Source) (`make` writes its own, by `made_source`) and writes
//! its text to a [`Sink`](byte_streams::Sink). `dfd_run` stands above: it runs programs in threads, and reads the command line.
//!
//! It uses `accepted_source`, which reads bytes as a program that keeps the rules of ownership or says why not; `canonical_text` and
//! `par_print`, the text of a program in one layout; `serial_meaning`, the depth-first run of a program; `frame_code`, its table of nodes, and
//! `dfd_core` and `async_core`, by which workers play it; `loop_expand`, which writes parallel loops out before a program is read;
//! `trail_record`, which records a play, `trail_text`, its text, and `trail_check`, which checks one; and `run_report`, the texts of runs.
//! Of the hall it has no code, only which runs threads may come to (`hall_machine`).
//!
//! Its theorem is the contract of `serve`: the status and the text that the sink took are those that `CommandGives` of `specs/Answer.antt`
//! gives for the command and the bytes read, and each fault has its cause. What follows from these definitions, of answers, plays and trails,
//! is in `dfd_laws`.
//!
//! # Why
//!
//! - **What only `run` needs is above the rest.** The hall is the longest way to the program, and no other command needs it. So these are in
//!   `dfd_plays`, which is proved beside the hall. What each command is to answer, `run` among them, is defined there.
//! - The lines of arguments that are no command and of a source that failed are written from constants. So "not enough memory" never replaces
//!   them.
//! - **A status of the streams or of memory may replace every other answer**: 2 if the source failed, 3 if the sink did, 10 if there was not
//!   enough memory. If a text says that an answer comes exactly in some case, it means: apart from these. A 3 comes exactly if the sink counted
//!   a fault, and a 2 exactly if the source did and the sink did not. A 10 may come at any allocation, and then neither did.
//! - The condition of `serve` is that each number of the command is one that its option may have, that `make` has 1 to 8,000 groups, and that
//!   the command is not `run`. `read_arguments` gives only such commands, and a caller who makes one by hand sees at once what is asked.
//! - A refused text is answered by the word of its reason and the byte where it is, both as the grammar of `par_text` gives them. Bytes have
//!   one verdict there, so the answer to them is one text.
//! - A program that breaks a rule of ownership is answered by the first refusal of the walk of `par_ownership`, with its line and name.
//! - **The clause of `play` names the play, and not only its result**: the words of the generator are in it. So the report's numbers are a
//!   function of the command and the bytes, and a body that ignores the seed or the workers is refused. What holds of each play is then said by
//!   laws over the same relation.
//! - What is said of a play is one relation on its ending (`TellsPlay`), and not a case for each status. The status of a finished play is that
//!   of the depth-first finish, and that of a stop is the stop's. So the definition shows which status comes when.
//! - **`make` is a play of bytes that nobody read.** Its clause is that of `play` over the bytes of the definition `made_source`, with a
//!   summary in place of the report. The source is left unchanged.
//! - **`loops` and `expand` are one relation on what the bytes become** (`ExpansionGives`): an expansion, of which each makes its own, or a
//!   refusal, whose line is the same for both. What `loops` makes of an expansion is the relation of `play`. So there is nothing to prove of it
//!   anew, and the laws on plays hold.
//! - **Places and lines of `loops` are those in the expansion**, since that is the text that is read. Lines before its end are those of the
//!   source, since the line ends of a loop stay in it. `expand` writes the rest, and `./explain` shows the line there.
//! - `expand` reads no program. So a text may be written out whose expansion is refused, and the refusal can be looked up in what was written.
//! - That the play exists is said under `∥ ∥₁`, since the core is at a moment of some run; that there is only one makes the answer one.
//! - `peak` refuses a source as `check` does, and then runs its program depth-first. Its status is made only from the run: if the actions are
//!   within the limit, from whether there is a fault; otherwise it is the stop. The limit goes before the fault, so a run with more actions
//!   than the limit has no other answer, whatever faults it has.
//! - **The clauses of `play`, `make` and `peak` cite one definition**, the depth-first run of `depth_first_run` with the command's quota. That
//!   of `play` gives its lines and its finish, and beside them the numbers of the play.
//! - **The clause of `run` names no run.** It says that there is one of the machine of `play` with these numbers, since the order of its events
//!   is the system's. So `run` may have many answers, `play` gives one of them, and a body that did a play in place of threads would meet the
//!   clause. That each worker has a thread, and a generator of its own, is not said by a clause.
//! - **`serve` takes no runtime**: it does every command other than `run`, so that a caller without threads has a call that ends. `dfd` takes
//!   the runtime and the gate, and gives them to `run` alone. What both write of an answer is one function (`write_answer`).
//! - Each command makes its text whole before the first byte is written, so "not enough memory" leaves the sink unchanged.
#![tactic(auto)]

mod answer;
mod call;
mod checking;
mod expanding;
mod finishing;
mod kinds;
mod making;
mod messages;
mod pcg_choices;
mod peaking;
mod playing;
mod playing_core;
mod ready_playing;
mod refusal;
mod status;
mod trail_messages;
mod trailing;
mod verifying;

pub use answer::Answer;
pub use call::{serve, write_answer, write_read_fault};
pub use finishing::report_answer;
pub use kinds::most_read;
pub use messages::USAGE;
pub use pcg_choices::PcgChoices;
pub use playing_core::{begun, stop_answer};
pub use refusal::refusal_answer;
pub use status::Status;
