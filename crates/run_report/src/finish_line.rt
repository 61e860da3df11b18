ghost use Rattle.std.specs.Prelude.{◌≡◌, ◌++◌, OnOk, string_bytes};
ghost use Rattle.run_report.specs.Texts.{line, kind_word, finish_words};

use dag_order::{FaultKind, Finish};
use std::alloc::AllocError;

/// The word for a kind of fault.
pub fn kind_word(kind: FaultKind) -> &'static str
    ensures { result.now ≡ kind_word kind }
{
    match kind {
        FaultKind::Index => "Index",
        FaultKind::Divide => "Divide",
        FaultKind::Size => "Size",
        FaultKind::Split => "Split",
        FaultKind::Depth => "Depth",
        FaultKind::Turns => "Turns",
    }
}

/// Writes the finish line at the end of the text: `end done`, or `end fault KIND line N`.
pub fn push_finish(text: &mut String, finish: Finish) -> Result<(), AllocError>
    ensures { OnOk result (string_bytes text.new ≡ string_bytes text.old ++ line (finish_words finish)) }
{
    match finish {
        Finish::Done => text.push_str("end done\n"),
        Finish::Faulted(fault) => writeln!(
            text,
            "end fault {} line {}",
            kind_word(fault.kind),
            fault.line
        ),
    }
}
