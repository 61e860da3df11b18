//! How an action is counted.

ghost use Rattle.std.specs.Prelude.{◌≡◌, MatchResult};
ghost use Rattle.turn_table.specs.Tables.{key_of, IsSeatOf};
ghost use Rattle.hall_slots.specs.Takes.{MeetsLaw};
ghost use Rattle.hall_slots.specs.Counting.{HasCounted, HasFoundSpent, MayDraw};

use crate::{HallPlace, HallRow};
use play_rules::Stop;
use std::marker::Brand;

/// Counts the next action of a seat that owns a deque.
///
/// # Errors
///
/// As many actions as are allowed were counted before: this is the stop that the seat has found.
pub fn count_action(row: &HallRow, seat: &mut HallPlace, limit: u32) -> Result<(), Stop>
    requires here { IsSeatOf row.now seat.old }
    requires limit { limit ≡ (key_of row.now).actions }
    requires may { MayDraw seat.old }
    ensures seat { MatchResult result (λ _. HasCounted limit seat.old seat.new) (λ stop. HasFoundSpent limit seat.old stop seat.new) }
    ensures meets { MeetsLaw (key_of row.now) seat.new }
{
    let found = row.count::<Brand>(seat);
    if found < u64::from(limit) {
        return Ok(());
    }
    Err(Stop::StepsSpent { limit })
}
