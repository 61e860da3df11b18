ghost use Rattle.std.specs.Prelude.{IfSome};
ghost use Rattle.node_table.specs.Codes.{code_shown};
ghost use Rattle.flat_program.specs.Programs.{IsFlatProgram, StartsIn};
ghost use Rattle.flat_program.specs.Entries.{IsNoted, IsFound};

use crate::flat_list::FlatList;
use crate::flat_start::FlatStart;
use crate::starting::entry_of;
use node_table::NodeTable;
use thread_stack::Frame;

/// The flat code of a program, with a start for each frame that has one.
#[derive(Drop)]
pub struct FlatProgram {
    /// The lists by number.
    pub(crate) lists: Vec<FlatList>,
    /// Two starts for each node: of its statement, and of its loop that comes again.
    pub(crate) starts: Vec<Option<FlatStart>>,
}

impl FlatProgram {
    ghost use Rattle.std.specs.Prelude.{◌≡◌, slice_get, option_copied};

    /// Where a frame begins, if its statement has flat code.
    #[inline(always)]
    pub fn start(&self, table: &NodeTable, frame: Frame) -> Option<FlatStart>
        requires { IsFlatProgram (code_shown table.now) self.now }
        ensures start { StartsIn (code_shown table.now) self.now.lists.items result }
        ensures found { IsNoted (code_shown table.now) self.now.starts.items frame → IsFound result }
    {
        let Some(entry) = entry_of(table, frame) else {
            return None;
        };
        match self.starts.get(entry) {
            Some(start) => *start,
            None => None,
        }
    }

    /// The list of a number.
    #[inline(always)]
    pub fn list(&self, number: u32) -> Option<&FlatList>
        ensures { option_copied result ≡ slice_get self.now.lists.items number }
    {
        self.lists.get(number as usize)
    }
}
