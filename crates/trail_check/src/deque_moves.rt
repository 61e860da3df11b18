//! What the threads do in their deques. A thread is the place of its next action.

ghost use Rattle.std.specs.Prelude.{◌≡◌, ℕ, Option as AnyOption, List as AnyList, [], ◌∷◌, None, IfOk, slice_get, true, false};
ghost use Rattle.deque_list.specs.Deques.{deque_ids};
ghost use Rattle.deque_list.specs.Ids.{IsLive};
ghost use Rattle.trail_check.specs.Holds.{Holds, deque_with, with_these};

use deque_list::{DequeId, List};
use std::alloc::AllocError;

/// The next place of the thread on top of a deque.
pub(crate) fn top(deques: &List<u32>, id: DequeId) -> Option<u32>
    requires { IsLive (deque_ids deques.now.deques) id }
    ensures { (owner : AnyOption ℕ) (items : AnyList ℕ) → Holds deques.now.deques id owner items → result ≡ slice_get items 0 }
{
    deques.item(id, 0).copied()
}

/// The thread on top of a deque goes on to a place.
pub(crate) fn go_on(deques: &mut List<u32>, id: DequeId, place: u32)
    requires { IsLive (deque_ids deques.old.deques) id }
    ensures deques { (owner : AnyOption ℕ) (top : ℕ) (under : AnyList ℕ) (h : Holds deques.old.deques id owner (top ∷ under))
        → deques.new.deques ≡ with_these h (deque_with id owner (place ∷ under) ∷ []) }
    ensures ids { deque_ids deques.new.deques ≡ deque_ids deques.old.deques }
    ensures most { deques.new.most ≡ deques.old.most }
{
    let Some(_) = deques.pop_top(id) else {
        return;
    };
    deques.push_top(id, place);
}

/// The thread on top of a deque goes on to a place, and a child that it forked is put on top of it.
///
/// # Errors
///
/// `AllocError` if the deque needs memory and there is none.
pub(crate) fn put_child(
    deques: &mut List<u32>,
    id: DequeId,
    parent: u32,
    child: u32,
) -> Result<(), AllocError>
    requires { IsLive (deque_ids deques.old.deques) id }
    ensures deques { IfOk result (λ _. (owner : AnyOption ℕ) (top : ℕ) (under : AnyList ℕ) (h : Holds deques.old.deques id owner (top ∷ under))
        → deques.new.deques ≡ with_these h (deque_with id owner (child ∷ parent ∷ under) ∷ [])) }
    ensures most { IfOk result (λ _. deques.new.most ≡ deques.old.most) }
{
    go_on(deques, id, parent);
    deques.reserve(id)?;
    deques.push_top(id, child);
    Ok(())
}

/// The thread on top of a deque goes on to a place, and the owner leaves the deque.
pub(crate) fn go_on_unowned(deques: &mut List<u32>, id: DequeId, place: u32)
    requires { IsLive (deque_ids deques.old.deques) id }
    ensures deques { (owner : AnyOption ℕ) (top : ℕ) (under : AnyList ℕ) (h : Holds deques.old.deques id owner (top ∷ under))
        → deques.new.deques ≡ with_these h (deque_with id None (place ∷ under) ∷ []) }
    ensures most { deques.new.most ≡ deques.old.most }
{
    go_on(deques, id, place);
    deques.give_up(id);
}

/// The thread on top of a deque leaves it, and a deque without threads leaves the list. The answer is whether it did.
pub(crate) fn leave(deques: &mut List<u32>, id: DequeId) -> bool
    requires { IsLive (deque_ids deques.old.deques) id }
    ensures alone { (owner : AnyOption ℕ) (top : ℕ) (h : Holds deques.old.deques id owner (top ∷ []))
        → (result ≡ true) × (deques.new.deques ≡ with_these h []) }
    ensures more { (owner : AnyOption ℕ) (top next : ℕ) (under : AnyList ℕ) (h : Holds deques.old.deques id owner (top ∷ next ∷ under))
        → (result ≡ false) × (deques.new.deques ≡ with_these h (deque_with id owner (next ∷ under) ∷ [])) }
    ensures most { deques.new.most ≡ deques.old.most }
{
    deques.pop_top(id);
    if top(deques, id).is_some() {
        return false;
    }
    deques.remove(id);
    true
}

/// The owner of a deque leaves it.
pub(crate) fn give_up(deques: &mut List<u32>, id: DequeId)
    requires { IsLive (deque_ids deques.old.deques) id }
    ensures deques { (owner : AnyOption ℕ) (items : AnyList ℕ) (h : Holds deques.old.deques id owner items)
        → deques.new.deques ≡ with_these h (deque_with id None items ∷ []) }
    ensures most { deques.new.most ≡ deques.old.most }
{
    deques.give_up(id);
}
