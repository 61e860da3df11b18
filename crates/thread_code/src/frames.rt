//! What comes next by a frame: the statements of its list, and its flat code.

ghost use Rattle.std.specs.Prelude.{◌≡◌, ◌≤◌, ◌<◌, ◌++◌, ℕ, List, length, IsSome, IfSome, ◌↔◌};
ghost use Rattle.par_tree.specs.Tree.{Program, Func, Body as BodyTree};
ghost use Rattle.thread_stack.specs.Passed.Middle.{Frame as RunFrame, before_all};
ghost use Rattle.thread_stack.specs.Lists.{numbers_of, numbers_from};
ghost use Rattle.thread_stack.specs.Frames.{AreStatements, AreFrames, names_now, frames_shown};
ghost use Rattle.thread_stack.specs.Measure.{frames_cost, list_cost, node_cost};
ghost use Rattle.flat_program.specs.Programs.{BeginsAt};

use crate::code::Code;
use flat_program::{FlatList, Instruction};
use thread_stack::{Frame, ListOf, frame_from, numbers};

impl Code {
    ghost use Rattle.node_table.specs.Codes.{code_shown};

    /// The numbers of the statements of a list, in their order; none where the code has no such list.
    #[inline(always)]
    pub fn numbers(&self, list: ListOf) -> &[u32]
        ensures { result.now ≡ numbers_of (code_shown self.now) list }
    {
        numbers(&self.table, list)
    }

    /// The frame for the statements of a list from a place on; None exactly where there are none.
    #[inline(always)]
    pub fn frame_from(&self, list: ListOf, next: usize) -> Option<Frame>
        ensures some { IsSome result ↔ (next < length (numbers_of (code_shown self.now) list)) }
        ensures frame { IfSome result (λ frame. frame ≡ Frame.Statements list next) }
        ensures frames { (p : Program) (gs : List Func) (b : BodyTree) (xs : List Frame) (fs : List RunFrame)
            → AreStatements p (code_shown self.now) (names_now gs) (numbers_from (code_shown self.now) list next) b
            → AreFrames p (code_shown self.now) gs xs fs
            → AreFrames p (code_shown self.now) gs (frames_shown result ++ xs) (before_all b fs) }
        ensures cost { frames_cost (code_shown self.now) (frames_shown result)
            ≤ list_cost (node_cost (code_shown self.now)) (numbers_from (code_shown self.now) list next) }
    {
        frame_from(&self.table, list, next)
    }

    /// Where the flat code of a frame begins, if it has any: a list of flat code, and a place of it. None also where flat code ends at once,
    /// since the thread does the statement by itself.
    #[inline(always)]
    pub fn start(&self, frame: Frame) -> Option<(&FlatList, usize)>
        ensures { IfSome result (λ start. BeginsAt (code_shown self.now) start.0.now start.1) }
    {
        let start = self.flat.start(&self.table, frame)?;
        let list = self.flat.list(start.list)?;
        if leaves_at(list, start.place) {
            return None;
        }
        Some((list, start.place))
    }
}

/// Whether flat code ends at a place.
#[inline(always)]
fn leaves_at(list: &FlatList, place: usize) -> bool {
    match list.places.get(place) {
        Some(here) => matches!(here.what, Instruction::Leave),
        None => true,
    }
}
