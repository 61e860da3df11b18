ghost use Rattle.std.specs.Prelude.{◌≡◌, IfOk};
ghost use Rattle.run_report.specs.Texts.{summary_text};

use crate::counted::push_counted;
use std::alloc::{AllocError, Global};

/// What a run of a made source came to, in numbers alone.
#[derive(Clone, Copy, PartialEq, Eq, Debug)]
pub struct Summary {
    /// The bytes of the source.
    pub bytes: u32,
    /// How many numbers the run printed.
    pub lines: u32,
    /// Their sum, which wraps at 64 bits.
    pub total: i64,
    /// How many actions the run had.
    pub actions: u32,
    /// How many periods the run had: one for each steal.
    pub periods: u32,
    /// How many of these began with a deque to their left.
    pub ahead: u32,
    /// The most words that were live at once.
    pub high: u64,
}

/// The text of a summary: `bytes N`, `lines N`, `total N`, `actions N`, `periods N`, `ahead N` and `high N`.
pub fn summary_text(alloc: Global, summary: &Summary) -> Result<Vec<u8>, AllocError>
    ensures { IfOk result (λ text. text.items ≡ summary_text summary.now) }
{
    let mut text = String::new(alloc);
    push_counted(&mut text, "bytes ", u64::from(summary.bytes))?;
    push_counted(&mut text, "lines ", u64::from(summary.lines))?;
    writeln!(text, "total {}", summary.total)?;
    push_counted(&mut text, "actions ", u64::from(summary.actions))?;
    push_counted(&mut text, "periods ", u64::from(summary.periods))?;
    push_counted(&mut text, "ahead ", u64::from(summary.ahead))?;
    push_counted(&mut text, "high ", summary.high)?;
    Ok(text.into_bytes())
}
