//! A law over what the calls of a map show, for proofs that use it.

ghost use Rattle.thread_map.specs.Laws.{ValueWritten};

/// A map of which a kept value was written keeps the new value under its id, and under each other id what it kept.
pub fn value_written<T>()
    ensures { ValueWritten T }
{}
