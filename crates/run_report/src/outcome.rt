ghost use Rattle.std.specs.Prelude.{◌≡◌, IfOk, string_bytes};
ghost use Rattle.containers.specs.BoundedList.{entries};
ghost use Rattle.run_report.specs.Texts.{text_of, outcome_lines};

use crate::finish_line::push_finish;
use dag_order::{Finish, Lines};
use std::alloc::{AllocError, Global};

/// The lines with which each text of a run begins: one for each number that it printed, `--`, and the finish line.
pub(crate) fn outcome_text(
    alloc: Global,
    printed: &Lines,
    finish: Finish,
) -> Result<String, AllocError>
    ensures { IfOk result (λ text. string_bytes text ≡ text_of (outcome_lines (entries printed.now) finish)) }
{
    let mut text = String::new(alloc);
    for number in printed.as_slice() {
        writeln!(text, "{number}")?;
    }
    text.push_str("--\n")?;
    push_finish(&mut text, finish)?;
    Ok(text)
}
