//! A seat at a row of turns.
use crate::law::TurnLaw;
use crate::place::Place;
use atomic_table::Seat;
use std::marker::Model;

/// A seat at a row of turns. It has no bytes. It is seen as its table, its number, the key and its hand.
#[derive(Drop)]
pub struct TurnSeat<V, L: TurnLaw<V>> {
    pub(crate) seat: Seat<Option<V>, Place<L::Key, V, L::Note>>,
}

impl<V, L: TurnLaw<V>> Model for TurnSeat<V, L> {
    ghost use Rattle.turn_table.specs.Seats.{SeatView, seat_view, IsInPlace};

    ghost Value = { SeatView L.Key V L.Note };

    ghost view = { λ it. seat_view it.seat };

    ghost invariant = { λ it. IsInPlace it.seat };
}
