//! Numbers as lengths of blocks and as places in blocks.

ghost use Rattle.std.specs.Prelude.{◌≡◌, ◌<◌, ◌≤◌, ◌%◌, ℕ, ℤ, List, length, pos, IsNone, IfSome};
ghost use Rattle.depth_first_run.specs.Values.{place_in};
ghost use Rattle.depth_first_run.specs.Run.{size_of, cut_of};

use language_limits::{LONGEST_BLOCK, PIECE_WORDS};

/// A number as a place that is no more than `most`.
pub fn place_up_to(number: i64, most: u32) -> Option<u32>
    ensures same { IfSome result (λ place. number ≡ pos place) }
    ensures within { IfSome result (λ place. place ≤ most) }
    ensures none { IsNone result → (place : ℕ) → number ≡ pos place → most < place }
{
    if number < 0 || i64::from(most) < number {
        return None;
    }
    Some(number as u32)
}

/// A number as the length of a new block: None exactly where no block has this length.
pub fn size_of(number: i64) -> Option<u32>
    ensures value { result ≡ size_of number }
    ensures within { IfSome result (λ len. len ≤ LONGEST_BLOCK) }
{
    place_up_to(number, LONGEST_BLOCK)
}

/// A number as a place of a block of `len` numbers: None exactly where the block does not have the place.
pub fn place_in(len: u32, index: i64) -> Option<u32>
    ensures value { (items : List ℤ) → length items ≡ len → result ≡ place_in items index }
    ensures within { IfSome result (λ place. place < len) }
{
    let place = place_up_to(index, len)?;
    if place < len { Some(place) } else { None }
}

/// A number as a place where a block of `len` numbers is cut: None exactly outside the block, and where no piece of 16 words begins.
pub fn cut_of(len: u32, at: i64) -> Option<u32>
    ensures value { (items : List ℤ) → length items ≡ len → result ≡ cut_of items at }
    ensures within { IfSome result (λ place. place ≤ len) }
    ensures between { IfSome result (λ place. place % PIECE_WORDS ≡ 0) }
{
    let at = place_up_to(at, len)?;
    if at % PIECE_WORDS == 0 {
        Some(at)
    } else {
        None
    }
}
