ghost use Rattle.std.specs.Prelude.{◌≡◌, ◌≢◌, ◌+◌, ◌≤◌, [], IfOk};
ghost use Rattle.depth_first_list.specs.Passed.Constants.{GREATEST_QUOTA, LEAST_QUOTA};
ghost use Rattle.containers.specs.BoundedList.{entries, spare};
ghost use Rattle.depth_first_list.specs.QuotaWords.{quota_words};
ghost use Rattle.open_periods.specs.Charges.{IsCharge};

use crate::charge::Charge;
use containers::BoundedList;
use depth_first_list::Quota;
use space_ledger::{Births, Book, Closed};
use std::alloc::{AllocError, Global};

/// A period that is under way.
#[derive(PartialEq, Eq, Debug, Drop)]
pub struct Period {
    /// Its number, from 1.
    pub number: u32,
    /// The words that it has allocated by allocations within the quota.
    pub used: u32,
    /// Whether its deque had a deque to its left as it began.
    pub ahead: bool,
    /// The actions that it ran so far.
    pub book: Book,
    /// The threads that it forked so far.
    pub births: Births,
}

impl Period {
    /// A period in which nothing is done yet, with room for a first action.
    pub fn start(alloc: Global, number: u32, ahead: bool) -> Result<Period, AllocError>
        ensures number { IfOk result (λ period. period.number ≡ number) }
        ensures unused { IfOk result (λ period. period.used ≡ 0) }
        ensures ahead { IfOk result (λ period. period.ahead ≡ ahead) }
        ensures empty { IfOk result (λ period. (entries period.book ≡ []) × (entries period.births ≡ [])) }
        ensures room { IfOk result (λ period. 1 ≤ spare period.book) }
    {
        let mut book: Book = BoundedList::new(alloc);
        book.reserve()?;
        Ok(Period {
            number,
            used: 0,
            ahead,
            book,
            births: BoundedList::new(alloc),
        })
    }

    /// What an allocation of `words` words would do. The quota counts gross: what is released refills none.
    ///
    /// Words of one piece, as those of a thread's record, are never above the quota.
    pub fn charge(&self, words: u32, k: Quota) -> Charge
        ensures charge { IsCharge self.now.used words (quota_words k) result }
        ensures piece { words ≤ LEAST_QUOTA → result ≢ Charge.Large }
    {
        let k = k.get();
        if words > k {
            Charge::Large
        } else if u64::from(self.used) + u64::from(words) <= u64::from(k) {
            Charge::Fits
        } else {
            Charge::Ends
        }
    }

    /// Counts the words of an allocation that fits. No quota is above 1,048,576 words.
    pub fn note(&mut self, words: u32)
        requires { self.old.used + words ≤ GREATEST_QUOTA }
        ensures { self.new ≡ record self.old { used = self.old.used + words } }
    {
        self.used += words;
    }

    /// The period as one that has ended. It takes no memory.
    pub fn close(self) -> Closed
        ensures { result ≡ record { number = self.number; ahead = self.ahead; book = self.book; births = self.births } }
    {
        Closed {
            number: self.number,
            ahead: self.ahead,
            book: self.book,
            births: self.births,
        }
    }
}
