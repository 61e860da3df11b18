ghost use Rattle.dfd_laws.specs.RecordedTrails.{TrailsOfPlaysCheck};

/// The trail of a play that finishes has a text that is read as this trail, and the check of it finds nothing wrong.
pub fn trails_of_plays_check()
    ensures { TrailsOfPlaysCheck }
{}
