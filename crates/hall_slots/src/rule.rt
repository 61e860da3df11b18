use crate::key::HallKey;
use crate::{SeatNote, Slot};
use turn_table::{TurnLaw, TurnSeat, Turns};

/// The law of a hall, as a row of turns keeps it.
pub struct HallRule;

impl TurnLaw<Slot> for HallRule {
    ghost use Rattle.turn_table.specs.Places.{WithPlaces};
    ghost use Rattle.hall_slots.specs.Law.{HallHolds, places_of, joined_note};

    type Key = HallKey;

    type Note = SeatNote;

    ghost fact = { WithPlaces places_of HallHolds };

    ghost blank = { joined_note };
}

/// The slots of a hall.
pub type HallRow = Turns<Slot, HallRule>;

/// A seat at them.
pub type HallPlace = TurnSeat<Slot, HallRule>;
