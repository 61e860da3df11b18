//! The expansion of a text.

ghost use Rattle.std.specs.Prelude.{◌≡◌};
ghost use Rattle.loop_expand.specs.Answers.{ExpandsOrNoMemory};

use crate::expand_fail::ExpandFail;
use crate::found_loops::find_loops;
use crate::names::find_taken;
use crate::replacing::expansion;
use par_lex::lexemes;
use std::alloc::Global;

/// The text with each loop written out as a call, and behind it the helpers that are called.
///
/// A text without a loop is its own expansion. Bytes that have no tokens are refused as the lexer refuses them, then the first
/// `par call` that begins no loop, and then the first name that a helper has.
pub fn expand(alloc: Global, text: &[u8]) -> Result<Vec<u8>, ExpandFail>
    ensures { ExpandsOrNoMemory result text.now }
{
    let lexemes = lexemes(alloc, text)?;
    let loops = find_loops(alloc, &lexemes)?;
    match find_taken(alloc, text, &lexemes, loops.len())? {
        Some(at) => Err(ExpandFail::NameTaken { at }),
        None => Ok(expansion(alloc, text, &loops)?),
    }
}
