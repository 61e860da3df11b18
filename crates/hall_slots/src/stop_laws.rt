//! What is a cause.

ghost use Rattle.hall_slots.specs.Stopping.{MemoryNeedsNoCause};

/// Want of memory needs no cause.
pub fn memory_needs_no_cause()
    ensures { MemoryNeedsNoCause }
{}
