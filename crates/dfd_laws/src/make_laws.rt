ghost use Rattle.dfd_laws.specs.MakeLaws.{MadeSourcesAreAccepted, MadeSummariesAddUp, MakesMeetNoFault};

/// The play of a made source ends well, or a limit stops it.
pub fn made_sources_are_accepted()
    ensures { MadeSourcesAreAccepted }
{}

/// A call of `make` never says that its source is refused or that its program has a fault.
pub fn makes_meet_no_fault()
    ensures { MakesMeetNoFault }
{}

/// Where it ends well, its summary says that 2N numbers were printed for N groups, and that their sum is N(N - 1).
pub fn made_summaries_add_up()
    ensures { MadeSummariesAddUp }
{}
