ghost use Rattle.accepted_source.specs.Sources.{ReadsSource};

use crate::source_fail::SourceFail;
use block_check::{CheckFail, Checked, check};
use par_lex::ParseFail;
use par_parse::parse;
use std::alloc::Global;

/// The program of a source.
///
/// # Errors
///
/// `Syntax` where the bytes are no text, `Check` where their program breaks a rule of ownership, and
/// `OutOfMemory` where there is not enough memory.
pub fn accept(alloc: Global, text: &[u8]) -> Result<Checked, SourceFail>
    ensures { ReadsSource text.now result }
{
    match parse(alloc, text) {
        Ok(program) => match check(alloc, program) {
            Ok(checked) => Ok(checked),
            Err(CheckFail::Refused(_, error)) => Err(SourceFail::Check(error)),
            Err(CheckFail::OutOfMemory(_)) => Err(SourceFail::OutOfMemory),
        },
        Err(ParseFail::Refused(error)) => Err(SourceFail::Syntax(error)),
        Err(ParseFail::OutOfMemory) => Err(SourceFail::OutOfMemory),
    }
}
