//! How a seat that has left is joined into another.

ghost use Rattle.turn_table.specs.Tables.{key_of, IsSeatOf};
ghost use Rattle.hall_slots.specs.Takes.{IsPlaced};
ghost use Rattle.hall_slots.specs.Leaving.{HasGone, HasJoined};

use crate::{HallPlace, HallRow};
use std::marker::Brand;

/// Joins a seat that has left into another, which has its places besides its own.
pub fn join(row: &HallRow, into: &mut HallPlace, gone: HallPlace)
    requires here { IsSeatOf row.now into.old × IsSeatOf row.now gone }
    requires placed { IsPlaced into.old }
    requires gone { HasGone gone }
    ensures { HasJoined (key_of row.now) into.old gone.hand.note into.new }
{
    row.join_seat::<Brand>(into, gone);
}
