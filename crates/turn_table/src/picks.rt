//! What a caller picks for a call, by the call's last type parameter.
ghost use Rattle.std.specs.Prelude.{ℕ};
ghost use Rattle.turn_table.specs.declared.look.Look.{Look};
ghost use Rattle.turn_table.specs.declared.hand.Hand.{Hand};

use std::marker::Brand;

/// The note of the first seat, of the law's blank note.
pub trait Opens<N> {
    ghost note: { N → N };
}

/// The note after a take or a count, of the hand before and the answer.
pub trait Notes<V, N> {
    ghost note: { Hand V N → Look V → N };
}

/// The note after a put back, of the hand before, and what each other held slot shows from then on, of its number and of what it showed.
pub trait Puts<V, N> {
    ghost note: { Hand V N → N };

    ghost shows: { ℕ → V → V };
}

/// The notes of both seats after a split, of the hand before.
pub trait Splits<V, N> {
    ghost left: { Hand V N → N };

    ghost right: { Hand V N → N };
}

/// The note after a join, of both hands before.
pub trait Joins<V, N> {
    ghost note: { Hand V N → Hand V N → N };
}

/// The first seat's note is blank. From then on each note stays, a new seat has that of the seat it came from, and each slot shows what it
/// showed.
pub struct Keep;

impl<N> Opens<N> for Keep {
    ghost note = { λ blank. blank };
}

impl<V, N> Notes<V, N> for Keep {
    ghost note = { λ hand _. hand.note };
}

impl<V, N> Puts<V, N> for Keep {
    ghost note = { λ hand. hand.note };

    ghost shows = { λ _ value. value };
}

impl<V, N> Splits<V, N> for Keep {
    ghost left = { λ hand. hand.note };

    ghost right = { λ hand. hand.note };
}

impl<V, N> Joins<V, N> for Keep {
    ghost note = { λ hand _. hand.note };
}

// A call at `Brand` picks these anew, where its arguments are at hand.
impl<N> Opens<N> for Brand {
    ghost note = { λ blank. blank };
}

impl<V, N> Notes<V, N> for Brand {
    ghost note = { λ hand _. hand.note };
}

impl<V, N> Puts<V, N> for Brand {
    ghost note = { λ hand. hand.note };

    ghost shows = { λ _ value. value };
}

impl<V, N> Splits<V, N> for Brand {
    ghost left = { λ hand. hand.note };

    ghost right = { λ hand. hand.note };
}

impl<V, N> Joins<V, N> for Brand {
    ghost note = { λ hand _. hand.note };
}
