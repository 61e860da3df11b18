//! The laws of what an owner reads, may note and may do.

ghost use Rattle.hall_actions.specs.Causes.{NothingMayBeNoted, MemoryMayBeNoted, FullArenasMayBeNoted};
ghost use Rattle.hall_actions.specs.Quotas.{ReadyMayBeDone, SpentIsTooMuch};
ghost use Rattle.hall_slots.specs.Passed.Laws.{InEachSetting};
ghost use Rattle.hall_actions.specs.Within.{OwnersAreWithin};
ghost use Rattle.hall_actions.specs.Reads.{OwnersRead, OwnersReadPools, PoolsAreSound, KeysAreSound};
ghost use Rattle.hall_actions.specs.Lists.{ListsAreRead, JoinsAreRead, WaitsAreRead, ResultsAreAwaited};
ghost use Rattle.hall_actions.specs.Lists.{EndsAreRead, LeavesAreRead, WordsAreInUse, KeptWordsAreInUse};

/// What an owner knows of the slots that it took: the numbers of its worker are within those of its hall, and its lane, the pool, the key and the
/// list are as they are to be for its next action. The result of a child that is nowhere may be waited for, and one in the list handed over.
pub fn owners_know()
    ensures within { InEachSetting OwnersAreWithin }
    ensures lane { OwnersRead }
    ensures pool { OwnersReadPools }
    ensures pools { PoolsAreSound }
    ensures keys { KeysAreSound }
    ensures lists { ListsAreRead }
    ensures joins { JoinsAreRead }
    ensures waits { WaitsAreRead }
    ensures results { ResultsAreAwaited }
    ensures ends { EndsAreRead }
    ensures leaves { LeavesAreRead }
    ensures words { WordsAreInUse }
    ensures kept { KeptWordsAreInUse }
{}

/// What an owner may note if no event comes: nothing new, that memory was wanting, or that the arena has no room. An action that is ready may be
/// done, and one for which the quota is spent takes more than is left of it.
pub fn owners_may()
    ensures nothing { NothingMayBeNoted }
    ensures memory { MemoryMayBeNoted }
    ensures arena { FullArenasMayBeNoted }
    ensures ready { ReadyMayBeDone }
    ensures spent { SpentIsTooMuch }
{}
