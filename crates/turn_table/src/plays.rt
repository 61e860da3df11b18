//! What a step on the table below tells. A call at `Brand` picks it, where the arguments of that call are at hand.

use crate::law::TurnLaw;
use crate::picks::{Joins, Splits};
use crate::place::Place;
use atomic_table::{Join, Play, Split};
use std::marker::{Brand, PhantomData};

impl<K, V, N> Play<Option<V>, Place<K, V, N>> for Brand {
    ghost then = { λ _ _ _ _. Unit {0} };
}

pub struct Cut<M> {
    pick: PhantomData<M>,
}

impl<K, V, N, M: Splits<V, N>> Split<Place<K, V, N>> for Cut<M> {
    ghost use Rattle.turn_table.specs.Steps.{with};
    ghost use Rattle.turn_table.specs.Hands.{noted, fresh};

    ghost left = { λ p. with p (noted p.hand (M.left p.hand)) };

    ghost right = { λ p. with p (fresh (M.right p.hand)) };
}

pub struct Pair<L, M> {
    pick: PhantomData<(L, M)>,
}

impl<V, L: TurnLaw<V>, M: Joins<V, L::Note>> Join<Place<L::Key, V, L::Note>> for Pair<L, M> {
    ghost use Rattle.std.specs.Prelude.{None};
    ghost use Rattle.turn_table.specs.Steps.{with};
    ghost use Rattle.turn_table.specs.Hands.{noted, spent};

    ghost both = { λ p q. with p (noted p.hand (M.note p.hand q.hand)) };

    ghost spent = { record { key = None; hand = spent L.blank } };
}
