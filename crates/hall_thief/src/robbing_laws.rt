//! What callers may rely on.

ghost use Rattle.hall_thief.specs.Robbing.{TriesShowNothing};

/// A seat that tried all deques in reach saw that none has a thread to steal.
pub fn tries_show_nothing()
    ensures { TriesShowNothing }
{}
