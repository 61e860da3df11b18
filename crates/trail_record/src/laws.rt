ghost use Rattle.trail_record.specs.Laws.{RecordedPlaysAreGood};

/// The events that are recorded of a play that finishes are those of a good trail, and the core is at the moment to which they lead.
pub fn recorded_plays_are_good()
    ensures { RecordedPlaysAreGood }
{}
