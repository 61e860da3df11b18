//! All loops of a list of tokens.

ghost use Rattle.std.specs.Prelude.{◌≡◌, List};
ghost use Rattle.loop_expand.specs.Reading.{loops_of};
ghost use Rattle.loop_expand.specs.Found.{AddsLoop, Finds};

use crate::expand_fail::ExpandFail;
use crate::forms::{begins_call, read_loop};
use crate::found_loop::Loop;
use crate::read_fail::ReadFail;
use par_lex::Lexeme;
use std::alloc::Global;

/// Adds the loop that the tokens begin with, the first of them at this place.
fn add_loop<'a>(
    alloc: Global,
    tokens: &'a [Lexeme],
    at: u32,
    loops: &mut Vec<Loop<'a>>,
) -> Result<(), ExpandFail>
    ensures { AddsLoop result loops.old.items loops.new.items tokens.now at }
{
    match read_loop(alloc, tokens) {
        Ok((found, _)) => {
            loops.push(found)?;
            Ok(())
        }
        Err(ReadFail::NoLoop) => Err(ExpandFail::BadLoop { at }),
        Err(ReadFail::OutOfMemory) => Err(ExpandFail::OutOfMemory),
    }
}

/// The loops of these tokens, in order: each `par call` begins one.
pub(crate) fn find_loops<'a>(
    alloc: Global,
    tokens: &'a [Lexeme],
) -> Result<Vec<Loop<'a>>, ExpandFail>
    ensures { Finds result (loops_of tokens.now) }
{
    let mut loops = Vec::new(alloc);
    let mut rest = tokens;
    'tokens: while let Some((first, behind)) = rest.split_first() {
        if begins_call(rest) {
            add_loop(alloc, rest, first.at, &mut loops)?;
        }
        rest = behind;
    }
    Ok(loops)
}
