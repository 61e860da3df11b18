//! The rule of the table below.
use crate::law::TurnLaw;
use crate::opening::Opening;
use crate::place::Place;
use atomic_table::TableRule;
use std::marker::PhantomData;

/// The table's own part and the law.
pub struct Ruled<L> {
    law: PhantomData<L>,
}

impl<V, L: TurnLaw<V>> TableRule<Option<V>, Place<L::Key, V, L::Note>, Opening<L::Key, V>>
    for Ruled<L> {
    ghost use Rattle.turn_table.specs.Rows.{Rule, unopened};

    ghost holds = { Rule L.fact L.blank };

    ghost first = { λ about. unopened about.key.value L.blank };
}
