//! The texts about a run, and the reader of a finish line.
//!
//! A text is a list of lines, each ended by LF. The report of a scheduler's run has a line for each number that the run
//! printed, the line `--`, the finish line, and its `periods`, `ahead` and `high`; the text of a depth-first run has
//! `actions` and `peak` in their place; and a summary has seven counted lines. The first two begin with the
//! printed numbers, the line `--` and the finish line.
//!
//! The layer stands on `dag_order`, whose `Finish` says how a run ended, on `containers` and on `byte_cuts`. Its one theorem: the
//! texts are those of `specs/Texts.antt`, and [`read_report`] answers a report exactly on its own text, and else the
//! first byte of the first line with which the bytes are no report (`specs/Reading.antt`).
//!
//! # Why
//!
//! - **A text is a list of lines**, each ended by LF, and `text_of` joins them. So what a text is, and where the reading of one stops, is said
//!   of lines, and the laws hardly speak of bytes.
//! - **"The first line that breaks the form"** is said of all reports: some report begins with the lines before it, and none goes on with the
//!   line that is there. So the place does not depend on how the text is read. If nothing is there, a line is missing; if what is there has no
//!   LF, it is no line. The numbers of these reports are in the ranges of their types.
//! - **A place after 4,294,967,295** is given as 4,294,967,295, the end of its type. For a text with more than 4,294,967,295 numbers there is
//!   not enough memory, since the list of the numbers has no more room.
//! - **Texts are `Vec<u8>`**, since they are bytes to write. `outcome_text` gives a `String` to which further lines can be added: the numbers,
//!   `--` and the finish line, with which every text of a run begins. `push_counted` adds a line of a name and a number.
//! - **Numbers are read as they are written**: no leading zeros, no `+`, and `-0` is no number. An argument may have leading zeros, so it is
//!   read by other functions.
//! - **`cut_at` and `behind`** are in a crate of their own, since two readers need them and the law that bytes are cut in one way.
#![tactic(auto)]

mod counted;
mod finish_line;
mod finish_reading;
mod front_lines;
mod numbers;
mod outcome;
mod peak_report;
mod place;
mod read_fail;
mod reading;
mod report;
mod summary;

pub use numbers::natural;
pub use peak_report::{PeakReport, peak_text};
pub use read_fail::ReadFail;
pub use reading::read_report;
pub use report::{Report, report_text};
pub use summary::{Summary, summary_text};
