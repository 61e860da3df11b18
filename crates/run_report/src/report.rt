ghost use Rattle.std.specs.Prelude.{◌≡◌, IfOk};
ghost use Rattle.run_report.specs.Shown.{shown_by_report};
ghost use Rattle.run_report.specs.Texts.{report_text};

use crate::counted::push_counted;
use crate::outcome::outcome_text;
use dag_order::{Finish, Lines};
use std::alloc::{AllocError, Global};

/// What a run by the scheduler's workers came to.
#[derive(PartialEq, Eq, Debug, Drop)]
pub struct Report {
    /// The numbers that the run printed, in depth-first order.
    pub lines: Lines,
    pub finish: Finish,
    /// How many periods the run had: one for each steal.
    pub periods: u32,
    /// How many of these began with a deque to their left.
    pub ahead: u32,
    /// The most words that were live at once.
    pub high: u64,
}

/// The text of a report: a line for each printed number, `--`, the finish line, and then `periods N`, `ahead N` and
/// `high N`.
pub fn report_text(alloc: Global, report: &Report) -> Result<Vec<u8>, AllocError>
    ensures { IfOk result (λ text. text.items ≡ report_text (shown_by_report report.now)) }
{
    let mut text = outcome_text(alloc, &report.lines, report.finish)?;
    push_counted(&mut text, "periods ", u64::from(report.periods))?;
    push_counted(&mut text, "ahead ", u64::from(report.ahead))?;
    push_counted(&mut text, "high ", report.high)?;
    Ok(text.into_bytes())
}
