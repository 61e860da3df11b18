//! The fact that a row of turns keeps.
ghost use Rattle.std.specs.Prelude.{ℕ, List};
ghost use Rattle.turn_table.specs.declared.hand.Hand.{Hand};

/// One fact over all slots, the count and all hands. It holds between any two atomic steps, so each call that steps has the condition that
/// its step keeps it.
pub trait TurnLaw<V> {
    /// What the fact may read besides. It is given to `Turns::new` and never changes.
    type Key: Drop;
    /// What a caller keeps in the hand of a seat.
    type Note;

    /// Of the key, of what each slot shows, at home or out, of the count word, and of the hands of all seats, by number.
    ghost fact: { Self.Key → List V → ℕ → List (Hand V Self.Note) → Type 0 };

    /// The note of a seat that was joined into another.
    ghost blank: { Self.Note };
}
