ghost use Rattle.std.specs.Prelude.{◌≡◌, ◌++◌, OnOk, string_bytes};
ghost use Rattle.run_report.specs.Texts.{line, counted};

use std::alloc::AllocError;

/// Writes a line of a name and a number, as `periods 7`, at the end of the text. The name ends with its blank.
pub(crate) fn push_counted(text: &mut String, name: &str, number: u64) -> Result<(), AllocError>
    ensures { OnOk result (string_bytes text.new ≡ string_bytes text.old ++ line (counted name.now number)) }
{
    writeln!(text, "{name}{number}")
}
