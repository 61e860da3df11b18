ghost use Rattle.deque_machine.specs.Laws.{InEachSetting};
ghost use Rattle.trail_check.specs.GoodLaws.{PlaysAreFollowed, AcceptedAreBounded, NothingBehindTheEnd, RootEndsLast, OneVerdict, AVerdict};

/// The events of a play that finishes are good, if at least one deque is allowed.
pub fn plays_are_followed()
    ensures { InEachSetting PlaysAreFollowed }
{}

/// After each front of a good trail's events the words in use are at most the peak, and two quotas for each period that is ahead; the
/// threads in the deques are in depth-first order; and no action was done twice. At most as many periods are ahead there as are marked at
/// the end.
pub fn accepted_are_bounded()
    ensures { InEachSetting AcceptedAreBounded }
{}

/// Once the root has ended no event may come.
pub fn nothing_behind_the_end()
    ensures { InEachSetting NothingBehindTheEnd }
{}

/// The last event of a good trail is the End of the root, which had not ended before.
pub fn root_ends_last()
    ensures { InEachSetting RootEndsLast }
{}

/// A trail has at most one verdict.
pub fn one_verdict()
    ensures { InEachSetting OneVerdict }
{}

/// And each trail has one.
pub fn a_verdict()
    ensures { InEachSetting AVerdict }
{}
