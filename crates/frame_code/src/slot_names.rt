ghost use Rattle.std.specs.Prelude.{◌≤◌};
ghost use Rattle.std.specs.Vec.{vec_len};

use par_tree::Name;

/// The names of a function's slots, of which there are at most 65,535.
#[derive(Drop)]
pub(crate) struct SlotNames {
    pub(crate) names: Vec<Name>,
    ghost few: { vec_len names ≤ 65535 },
}

impl SlotNames {
    ghost use Rattle.std.specs.Prelude.{◌≡◌, length};
    ghost use Rattle.par_tree.specs.View.{name_tree};
    ghost use Rattle.node_table.specs.Names.{IsSlot};
    ghost use Rattle.frame_code.specs.Scopes.{names_tree};
    ghost use Rattle.frame_code.specs.Slotted.{Has};

    /// Names that are the slots of a function.
    pub(crate) fn of(names: Vec<Name>) -> SlotNames
        requires { vec_len names ≤ 65535 }
        ensures { result.names ≡ names }
    {
        SlotNames { names }
    }

    /// How many there are.
    pub(crate) fn count(&self) -> u16
        ensures { result ≡ length (names_tree self.now.names.items) }
    {
        self.names.len() as u16
    }

    /// The slot of a name.
    pub(crate) fn slot(&self, name: &Name) -> u16
        requires { Has (names_tree self.now.names.items) (name_tree name.now) }
        ensures { IsSlot (names_tree self.now.names.items) result (name_tree name.now) }
    {
        for i in 0..self.names.len() {
            if self.names[i].bytes == name.bytes {
                return i as u16;
            }
        }
        unreachable!()
    }
}
