use crate::kind::Kind;

/// A declared name: what it stands for, whether it is a block that is held, and the line of its
/// declaration.
#[derive(Clone, Copy)]
pub(crate) struct Entry<'a> {
    pub name: &'a [u8],
    pub kind: Kind,
    pub held: bool,
    pub line: u32,
}

impl Entry<'_> {
    ghost use Rattle.std.specs.Prelude.{◌≡◌};
    ghost use Rattle.par_ownership.specs.Environment.{held_also};
    ghost use Rattle.block_check.specs.Shown.{entry_shown, marked_entry};

    /// The entry, held or gone where it has this name.
    pub(crate) fn marked(self, name: &[u8], held: bool) -> Self
        ensures { result ≡ marked_entry name.now held self.entry }
    {
        if self.name == name {
            Entry { held, ..self }
        } else {
            self
        }
    }

    /// The entry, held where it is held on another side too.
    pub(crate) fn held_also(self, other: bool) -> Self
        ensures { entry_shown result ≡ held_also other (entry_shown self.entry) }
    {
        Entry {
            held: self.held && other,
            ..self
        }
    }
}
