ghost use Rattle.slot_store.specs.Laws.{SlotsHaveWhatTheStoreHas, StoresThatAgreeAreShown, RowsAreAsLongAsNames, WordsAreThoseOfTheStore};

/// A slot has just what the store has under its name.
pub fn slots_have_what_the_store_has()
    ensures { SlotsHaveWhatTheStoreHas }
{}

/// A row shows each store that has the same under each name.
pub fn stores_that_agree_are_shown()
    ensures { StoresThatAgreeAreShown }
{}

/// A row has a slot for each name.
pub fn rows_are_as_long_as_names()
    ensures { RowsAreAsLongAsNames }
{}

/// The words of the blocks in slots are those of the blocks that the store holds.
pub fn words_are_those_of_the_store()
    ensures { WordsAreThoseOfTheStore }
{}
