ghost use Rattle.turn_table.specs.Laws.{LoneSeatsAreFree};

/// Where no other seat has places, a seat finds each turn free that it does not hold.
pub fn lone_seats_are_free<V, N>()
    ensures { LoneSeatsAreFree V N }
{}
