//! How many periods are marked ahead.

ghost use Rattle.std.specs.Prelude.{◌≡◌, ◌≤◌, length};
ghost use Rattle.std.specs.Option.{option_copied};
ghost use Rattle.language_limits.specs.declared.TheConstants.{MOST_WORKERS};
ghost use Rattle.scheduler_state.specs.Marks.{ahead_in, open_ahead};

use open_periods::{PeriodTable, Seat};

/// Whether the period of a seat is marked ahead.
fn ahead_in(seat: Option<&Seat>) -> bool
    ensures { result ≡ ahead_in (option_copied seat.entry) }
{
    match seat {
        None => false,
        Some(seat) => seat.period.ahead,
    }
}

/// How many open periods of a table are marked ahead.
pub fn open_ahead(table: &PeriodTable) -> u32
    requires { length table.now.seats.items ≤ MOST_WORKERS }
    ensures { result ≡ open_ahead table.now.seats.items }
{
    let mut ahead = 0;
    'seats: for worker in 0..table.workers() {
        ahead += u32::from(ahead_in(table.seat(worker)));
    }
    ahead
}
