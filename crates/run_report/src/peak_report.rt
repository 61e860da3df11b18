ghost use Rattle.std.specs.Prelude.{◌≡◌, IfOk};
ghost use Rattle.containers.specs.BoundedList.{entries};
ghost use Rattle.run_report.specs.Texts.{peak_text};

use crate::counted::push_counted;
use crate::outcome::outcome_text;
use dag_order::{Finish, Lines};
use std::alloc::{AllocError, Global};

/// What a depth-first run came to.
#[derive(PartialEq, Eq, Debug, Drop)]
pub struct PeakReport {
    /// The numbers that the run printed.
    pub lines: Lines,
    pub finish: Finish,
    /// How many actions the run had.
    pub actions: u32,
    /// The most words that were live at once.
    pub peak: u64,
}

/// The text of a depth-first run: a line for each printed number, `--`, the finish line, and then `actions N` and
/// `peak N`.
pub fn peak_text(alloc: Global, report: &PeakReport) -> Result<Vec<u8>, AllocError>
    ensures { IfOk result (λ text. text.items ≡ peak_text (entries report.now.lines) report.now.finish report.now.actions report.now.peak) }
{
    let mut text = outcome_text(alloc, &report.lines, report.finish)?;
    push_counted(&mut text, "actions ", u64::from(report.actions))?;
    push_counted(&mut text, "peak ", report.peak)?;
    Ok(text.into_bytes())
}
