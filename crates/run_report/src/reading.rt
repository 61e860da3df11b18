ghost use Rattle.std.specs.Prelude.{◌≡◌, ◌≤◌, ◌++◌, length, map, IfOk, MatchResult};
ghost use Rattle.std.specs.Fmt.{signed_decimal};
ghost use Rattle.containers.specs.BoundedList.{entries};
ghost use Rattle.run_report.specs.Lines.{NoValue};
ghost use Rattle.run_report.specs.Reading.{IsFailure};
ghost use Rattle.run_report.specs.Shown.{shown_by_report, AreWords};
ghost use Rattle.run_report.specs.Texts.{text_of, report_text};

use crate::front_lines::{counted_line, finish_line, small_line, value_line};
use crate::place::not_report;
use crate::read_fail::ReadFail;
use crate::report::Report;
use byte_cuts::behind;
use dag_order::Lines;
use std::alloc::{AllocError, Global};

/// The numbers with whose lines a text begins, and the bytes behind them.
fn read_values(alloc: Global, text: &[u8]) -> Result<(Lines, &[u8]), AllocError>
    ensures spelled { IfOk result (λ read. text.now ≡ text_of (map signed_decimal (entries read.0)) ++ read.1.now) }
    ensures words { IfOk result (λ read. AreWords (entries read.0)) }
    ensures all { IfOk result (λ read. NoValue read.1.now) }
{
    let mut lines = Lines::new(alloc);
    let mut rest = text;
    'values: while let Some((value, after)) = value_line(rest) {
        lines.reserve()?;
        lines.add(value);
        rest = after;
    }
    Ok((lines, rest))
}

/// The report that has this text.
///
/// Bytes that are the text of no report are refused at the first line with which they are none. No memory is left
/// where a text has more than 4,294,967,295 numbers.
pub fn read_report(alloc: Global, text: &[u8]) -> Result<Report, ReadFail>
    ensures { MatchResult result
        (λ report. text.now ≡ report_text (shown_by_report report))
        (λ fail. IsFailure text.now fail) }
{
    let (lines, rest) = read_values(alloc, text)?;
    let Some(at_finish) = behind(rest, b"--\n") else {
        return Err(not_report(text, rest));
    };
    let Some((finish, at_periods)) = finish_line(at_finish) else {
        return Err(not_report(text, at_finish));
    };
    let Some((periods, at_ahead)) = small_line(at_periods, "periods ") else {
        return Err(not_report(text, at_periods));
    };
    let Some((ahead, at_high)) = small_line(at_ahead, "ahead ") else {
        return Err(not_report(text, at_ahead));
    };
    let Some((high, at_end)) = counted_line(at_high, "high ") else {
        return Err(not_report(text, at_high));
    };
    if !at_end.is_empty() {
        return Err(not_report(text, at_end));
    }
    Ok(Report {
        lines,
        finish,
        periods,
        ahead,
        high,
    })
}
