//! A deque of two is cut in two.

ghost use Rattle.std.specs.Prelude.{◌≡◌, ◌<◌, ◌∷◌, [], ℕ, Option, None, length};
ghost use Rattle.deque_list.specs.Ids.{IsSmallestFree};
ghost use Rattle.deque_list.specs.Deques.{deque_ids};
ghost use Rattle.list_changes.specs.Shown.{Holds, IsCut, deque_with};

use deque_list::{DequeId, List};

/// Puts the bottom thread of a deque of two into a deque of its own directly to the right, which nobody owns. Returns the new deque, whose
/// id is the smallest that is free.
pub fn set_aside<T: Drop>(list: &mut List<T>, deque: DequeId) -> DequeId
    requires two { (owner : Option ℕ) × (top : T) × (bottom : T) × Holds list.old deque owner (top ∷ bottom ∷ []) }
    requires room { list.old.spare ≡ 1 }
    requires few_deques { length list.old.deques < list.old.most }
    ensures deques { (owner : Option ℕ) (top : T) (bottom : T) (holds : Holds list.old deque owner (top ∷ bottom ∷ []))
        → IsCut holds list.new (deque_with deque owner (top ∷ [])) (deque_with result None (bottom ∷ [])) }
    ensures id { IsSmallestFree (deque_ids list.old.deques) result }
    ensures spent { list.new.spare ≡ 0 }
{
    let Some(bottom) = list.take_bottom(deque) else {
        unreachable!();
    };
    let Ok(id) = list.insert_right(deque, bottom, 0) else {
        unreachable!();
    };
    list.give_up(id);
    id
}
