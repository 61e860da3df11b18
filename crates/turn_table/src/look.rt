//! What a seat was answered.

/// One answer that a seat had. No value of it is made: it stands in contracts alone.
pub enum Look<V> {
    /// It took this slot, and found this value there.
    Took { slot: u32, value: V },
    /// It tried to take this slot, and found this word there.
    Refused { slot: u32, seen: u64 },
    /// It counted, and found this word.
    Counted { found: u64 },
}
