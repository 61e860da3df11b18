ghost use Rattle.std.specs.Prelude.{◌≡◌, ◌↔◌, ◌+◌, ◌<◌, ◌^◌, get_or, set, replicate, pos, ◌+ℤ◌, FitsSigned, false, true, IfOk, IsErr, cond};
ghost use Rattle.std.specs.Int.{int_max, w64};

use crate::writing::write;
use std::alloc::{AllocError, Global};
use trail_meaning::TrailNumbers;

/// What the events of a trail have done so far.
#[derive(Drop)]
pub struct Tally {
    /// Whether the action at each place of the depth-first list is done.
    pub(crate) done: Vec<bool>,
    /// How many actions are done.
    pub(crate) actions: u32,
    /// The words in use.
    pub(crate) live: i64,
    /// The periods, those that are marked ahead, and the high-water mark.
    pub(crate) numbers: TrailNumbers,
}

impl Tally {
    ghost use Rattle.trail_check.specs.Tallies.{IsBlank, IsFew, HasBegun, HasActed};

    /// Nothing has been done of a list of so many actions.
    pub(crate) fn new(alloc: Global, places: usize) -> Result<Tally, AllocError>
        ensures { IfOk result (λ tally. IsBlank places tally) }
    {
        Ok(Tally {
            done: vec![in alloc; false; places]?,
            actions: 0,
            live: 0,
            numbers: TrailNumbers {
                periods: 0,
                ahead: 0,
                high: 0,
            },
        })
    }

    /// A period begins, and is marked ahead or not.
    pub(crate) fn begin(&mut self, ahead: bool)
        requires { IsFew self.old }
        ensures { HasBegun ahead self.old self.new }
    {
        self.numbers.periods += 1;
        if ahead {
            self.numbers.ahead += 1;
        }
    }

    /// The action at a place is done, which raises the words in use by so many.
    ///
    /// # Errors
    ///
    /// `AllocError` exactly if 63 bits do not count the words in use after it, which no memory holds. It asks for no memory.
    pub(crate) fn act(&mut self, place: u32, change: i64) -> Result<(), AllocError>
        requires { IsFew self.old }
        ensures acted { IfOk result (λ _. HasActed place change self.old self.new) }
        ensures many { IsErr result ↔ ¬ FitsSigned w64 (self.old.live +ℤ change) }
    {
        let live = raised(self.live, change)?;
        write(&mut self.done, place, true);
        self.actions += 1;
        self.live = live;
        self.numbers.high = self.numbers.high.max(above_zero(live));
        Ok(())
    }

    /// Whether the action at a place is done.
    pub(crate) fn is_done(&self, place: u32) -> bool
        ensures { result ≡ get_or self.now.done.items place false }
    {
        match self.done.get(place as usize) {
            Some(done) => *done,
            None => false,
        }
    }
}

// The words in use after they rise by so many, if 63 bits count them.
fn raised(live: i64, change: i64) -> Result<i64, AllocError>
    ensures sum { IfOk result (λ sum. sum ≡ live +ℤ change) }
    ensures many { IsErr result ↔ ¬ FitsSigned w64 (live +ℤ change) }
{
    live.checked_add(change).ok_or(AllocError)
}

// A number of words, or 0 if it is below.
fn above_zero(words: i64) -> u64
    ensures { pos result ≡ int_max (pos 0) words }
{
    if words < 0 { 0 } else { words as u64 }
}
