ghost use Rattle.par_tree.specs.Laws.{ListsAreLists};

/// Each list of a tree is the list in the `Vec`, one entry after the other.
pub fn lists_are_lists()
    ensures { ListsAreLists }
{}
