ghost use Rattle.par_ownership.specs.Laws.{WalkIsOwnership};

/// The walk meets no refusal exactly where the rules of ownership hold.
pub fn walk_is_ownership()
    ensures { WalkIsOwnership }
{}
