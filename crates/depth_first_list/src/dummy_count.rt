ghost use Rattle.std.specs.Prelude.{◌≡◌, ◌+◌, ◌*◌, ◌≤◌, ◌<◌};
ghost use Rattle.depth_first_list.specs.Quotas.{dummies_of};
ghost use Rattle.depth_first_list.specs.QuotaWords.{quota_words};

use crate::quota::Quota;
use language_limits::{LONGEST_BLOCK, MOST_LEAVES};

/// How many dummies are run before an allocation of `words` words: none where the quota covers it, else as
/// many as the quotas that it needs.
///
/// So the words of a large allocation are at most its dummies times the quota.
pub fn dummies(words: u32, k: Quota) -> u32
    ensures dummies { result ≡ dummies_of words (quota_words k) }
    ensures cover { quota_words k < words → words ≤ quota_words k * result }
    ensures needed { quota_words k < words → quota_words k * result < words + quota_words k }
    ensures several { quota_words k < words → 1 < result }
    ensures bound { words ≤ LONGEST_BLOCK → result ≤ MOST_LEAVES }
{
    let k = k.get();
    if words <= k { 0 } else { words.div_ceil(k) }
}
