ghost use Rattle.std.specs.Prelude.{◌≡◌, ℕ, ◌<◌, ◌≤◌, length, true, false, Some, slice_get, MatchOption};
ghost use Rattle.deque_list.specs.Ids.{IsLive, place_ids};

use crate::deque_id::DequeId;
use crate::place::Place;

// The rank at which a deque stands.
pub(crate) fn rank_in(places: &[Place], id: DequeId) -> Option<usize>
    ensures { MatchOption result (¬ IsLive (place_ids places.now) id) (λ rank. slice_get (place_ids places.now) rank ≡ Some id) }
{
    for (rank, place) in places.iter().enumerate() {
        if place.id == id {
            return Some(rank);
        }
    }
    None
}

// The first number that is not marked.
pub(crate) fn first_unmarked(marks: &[bool]) -> usize
    ensures marked { (n : ℕ) → n < result → slice_get marks.now n ≡ Some true }
    ensures here { result < length marks.now → slice_get marks.now result ≡ Some false }
    ensures within { result ≤ length marks.now }
{
    for (n, &mark) in marks.iter().enumerate() {
        if !mark {
            return n;
        }
    }
    marks.len()
}
