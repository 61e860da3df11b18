//! Flat code, run from a place on.

ghost use Rattle.slot_store.specs.Shown.{slots_shown};
ghost use Rattle.flat_code.specs.Passed.Forward.{IsForward};
ghost use Rattle.flat_code.specs.Shown.{flat_shown};
ghost use Rattle.flat_run.specs.Ran.{at_point, RanTo};

use crate::end::End;
use crate::next::Next;
use crate::step::do_one;
use crate::stop::Stop;
use flat_code::Place;
use slot_store::Slots;

/// Runs flat code from a place on, with so many turns, up to the place at which it does not go on.
pub fn run_flat(slots: &mut Slots, places: &[Place], from: usize, turns: u32) -> Stop
    requires { IsForward (flat_shown places.now) }
    ensures { RanTo (flat_shown places.now) (at_point from (slots_shown slots.old) turns) result (slots_shown slots.new) }
{
    let mut at = from;
    let mut left = turns;
    'steps: while let Some(place) = places.get(at) {
        match do_one(slots, &place.what, at, left) {
            Next::Goes { place, turns } => {
                at = place;
                left = turns;
            }
            Next::Ends(end) => {
                return Stop {
                    place: at,
                    turns: left,
                    end,
                };
            }
        }
    }
    Stop {
        place: at,
        turns: left,
        end: End::Leaves,
    }
}
