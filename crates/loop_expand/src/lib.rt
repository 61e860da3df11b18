//! Writes the parallel loops of a text out, as calls of helpers that halve the range or the block.
//!
//! A text may have two forms that the grammar does not know, `par call x = f(1 into n, c);` and
//! `par call x = f(use b at 64, c);`. This layer puts a call in place of each such loop, and behind the text its helper, the
//! function that is called: it halves the numbers or the block until it calls `f`, and adds the answers up. The layer stands
//! on the tokens of `par_lex`. Its one theorem is that [`expand`] gives the expansion of a text (`specs/Expansion.antt`), byte
//! for byte, exactly where each `par call` begins a loop and no name is that of a helper; every other text it refuses, with the
//! reason and the place of the first token that is in the way.
#![tactic(auto)]

mod expand_fail;
mod expanding;
mod forms;
mod found_loop;
mod found_loops;
mod helpers;
mod kinds;
mod laws;
mod names;
mod pieces;
mod places;
mod read_fail;
mod replacing;
mod runs;
mod texts;

pub use expand_fail::ExpandFail;
pub use expanding::expand;
pub use laws::{
    a_text_has_an_answer, a_text_has_one_answer, a_text_without_loops_stays, loops_stand_apart,
    other_bytes_stay,
};
