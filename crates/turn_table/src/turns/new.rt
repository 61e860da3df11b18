//! How a row is made.
ghost use Rattle.std.specs.Prelude.{◌≡◌, ◌<◌, [], ◌∷◌, vec_len, IsErr, IfOk, IfErr};
ghost use Rattle.turn_table.specs.Hands.{fresh};
ghost use Rattle.turn_table.specs.Tables.{key_of, slot_count, IsSeatOf};

use super::values::{unwrap, wrap};
use super::{Turns, WORDS_APART};
use crate::law::TurnLaw;
use crate::opening::Opening;
use crate::picks::Opens;
use crate::turn_seat::TurnSeat;
use atomic_table::{Refused, Table};
use language_limits::GREATEST_COUNT;
use std::alloc::{AllocError, Global};
use std::marker::Brand;
use std::snapshot::Snapshot;

impl<V, L: TurnLaw<V>> Turns<V, L> {
    /// A row with a slot for each value, in order, all turns free and the count at 0, and its first seat.
    ///
    /// # Errors
    ///
    /// The values come back where there is no memory. For a row of more than [`GREATEST_COUNT`] slots memory is said to be wanting, and none
    /// is asked for.
    pub fn new<M: Opens<L::Note>>(
        alloc: Global,
        mut values: Vec<V>,
        key: L::Key,
    ) -> Result<(Turns<V, L>, TurnSeat<V, L>), (Vec<V>, AllocError)>
        requires some_slot { 0 < vec_len values }
        requires keeps { L.fact key values.items 0 (fresh (M.note L.blank) ∷ []) }
        ensures ok { IfOk result (λ made. IsSeatOf made.0 made.1 × (key_of made.0 ≡ key) × (slot_count made.0 ≡ vec_len values)
            × (made.1.hand ≡ fresh (M.note L.blank))) }
        ensures err { IfErr result (λ refused. refused.0.items ≡ values.items) }
        ensures many { GREATEST_COUNT < vec_len values → IsErr result }
    {
        if values.len() > GREATEST_COUNT as usize {
            return Err((values, AllocError));
        }
        let Ok(words) = Vec::from_elem(alloc, 0u64, values.len() * WORDS_APART + WORDS_APART) else {
            return Err((values, AllocError));
        };
        let Ok(slots) = wrap(alloc, &mut values) else {
            return Err((values, AllocError));
        };
        let about = Opening {
            key: Snapshot::of(&key),
            values: Snapshot::of(&slots),
        };
        match Table::new(alloc, words.as_slice(), slots, &about) {
            Ok((table, mut seat)) => {
                table.shared.load::<Brand>(&mut seat, 0);
                Ok((
                    Turns {
                        table,
                        spare: values,
                    },
                    TurnSeat { seat },
                ))
            }
            Err(Refused { slots }) => {
                unwrap(slots, &mut values);
                Err((values, AllocError))
            }
        }
    }
}
