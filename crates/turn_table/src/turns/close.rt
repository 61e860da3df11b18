//! How a row is closed.
ghost use Rattle.std.specs.Prelude.{◌≡◌, []};
ghost use Rattle.turn_table.specs.Law.{Closes};
ghost use Rattle.turn_table.specs.Tables.{key_of, IsSeatOf};

use super::Turns;
use super::values::{empty, first_taken};
use crate::law::TurnLaw;
use crate::still_held::StillHeld;
use crate::turn_seat::TurnSeat;

impl<V: Drop, L: TurnLaw<V>> Turns<V, L> {
    /// Closes the row with a seat that holds nothing, and answers the value of each slot, in order.
    ///
    /// # Errors
    ///
    /// `StillHeld` exactly where another seat holds a turn still. It has the first such slot, and the values are
    /// given up.
    pub fn close(self, seat: TurnSeat<V, L>) -> Result<Vec<V>, StillHeld>
        requires here { IsSeatOf self seat }
        requires empty { seat.hand.holds ≡ [] }
        ensures { Closes L.fact L.blank (key_of self) seat result }
    {
        let Turns {
            table,
            spare: mut values,
        } = self;
        let TurnSeat { seat } = seat;
        let mut closed = table.close_with(seat);
        let taken = first_taken(&closed);
        empty(&mut closed, &mut values);
        closed.free();
        match taken {
            Some(slot) => Err(StillHeld { slot }),
            None => Ok(values),
        }
    }
}
