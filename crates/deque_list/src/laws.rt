//! Laws over what the calls of a list show, for proofs that use it.

ghost use Rattle.deque_list.specs.Deques.{Deque};
ghost use Rattle.deque_list.specs.Laws.{InsertedThenRemoved, OneSmallestFree, TopWritten, TopWrittenIds};
ghost use Rattle.deque_list.specs.declared.place.Place.{Place};

/// What was inserted at a rank and is removed there leaves the list as it was: the places of an order, and the
/// deques of a list.
pub fn inserted_then_removed<T>()
    ensures places { InsertedThenRemoved Place }
    ensures deques { InsertedThenRemoved (Deque T) }
{}

/// There is one smallest free id.
pub fn one_smallest_free()
    ensures { OneSmallestFree }
{}

/// The list of which the top item of a deque was written is the list with that one item set, and its ids are as
/// they were.
pub fn top_written<T>()
    ensures list { TopWritten T }
    ensures ids { TopWrittenIds T }
{}
