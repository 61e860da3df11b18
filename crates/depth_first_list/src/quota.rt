ghost use Rattle.std.specs.Prelude.{◌≡◌, ◌↔◌, IsSome, IfSome};
ghost use Rattle.depth_first_list.specs.Quotas.{IsQuota};

use language_limits::{GREATEST_QUOTA, LEAST_QUOTA};

/// The words that a worker may allocate between two steals: a multiple of 16 from 16 to 1,048,576.
#[derive(Clone, Copy, PartialEq, Eq, Debug)]
pub struct Quota {
    words: u32,
    pub ghost is_quota: { IsQuota words },
}

impl Quota {
    ghost use Rattle.depth_first_list.specs.QuotaWords.{quota_words};

    /// None exactly where `k` is no multiple of 16 from 16 to 1,048,576.
    pub fn new(k: u32) -> Option<Quota>
        ensures some { IsSome result ↔ IsQuota k }
        ensures words { IfSome result (λ quota. quota_words quota ≡ k) }
    {
        if k % LEAST_QUOTA == 0 && LEAST_QUOTA <= k && k <= GREATEST_QUOTA {
            Some(Quota { words: k })
        } else {
            None
        }
    }

    /// How many words it is.
    pub fn get(&self) -> u32
        ensures words { result ≡ quota_words self.now }
        ensures quota { IsQuota result }
    {
        self.words
    }
}
