ghost use Rattle.trail_check.specs.CheckLaws.{OneAnswer, AnAnswer, AcceptedTrailsAreBounded};

/// A trail has at most one answer, other than that memory is wanting.
pub fn one_answer()
    ensures { OneAnswer }
{}

/// And each trail has one.
pub fn an_answer()
    ensures { AnAnswer }
{}

/// The events of an accepted trail are good, and its numbers are theirs. After each event the words in use are at most the depth-first
/// peak, and two quotas for each period that is ahead.
pub fn accepted_trails_are_bounded()
    ensures { AcceptedTrailsAreBounded }
{}
