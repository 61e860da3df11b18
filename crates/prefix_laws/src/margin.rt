//! How far the words in use are below the space bound.

ghost use Rattle.std.specs.Prelude.{◌≡◌, ◌<◌, ◌*◌, ℕ, List as AnyList, IfOk, pos, ◌+ℤ◌};
ghost use Rattle.depth_first_run.specs.States.{Setting};
ghost use Rattle.depth_first_list.specs.QuotaWords.{quota_words};
ghost use Rattle.deque_machine.specs.Books.{Book as AnyBook, IsPrefix, bound, done_in, periods_ahead, words_in_use};
ghost use Rattle.depth_first_run.specs.Run.{list_of};
ghost use Rattle.prefix_laws.specs.Prefixes.{IsWithin, IsWithinBeside, TellsDepthFirst};

use crate::prefix::ahead_of;
use depth_first_list::Quota;
use open_periods::PeriodTable;
use serial_journal::Serial;
use std::alloc::{AllocError, Global};

/// Two quotas for each of so many periods.
fn two_quotas(k: Quota, periods: u32) -> u64
    ensures value { result ≡ 2 * quota_words k * periods }
    ensures small { result < 9223372036854775808 }
{
    2 * u64::from(k.get()) * u64::from(periods)
}

/// How many words more might be in use under the space bound, where so many are.
pub(crate) fn margin_of(
    alloc: Global,
    table: &PeriodTable,
    serial: &Serial,
    k: Quota,
    live: u64,
) -> Result<u64, AllocError>
    requires { IsWithinBeside (quota_words k) live table.now serial.now }
    ensures { (c : Setting) (books : AnyList AnyBook) (n : ℕ) → IsWithin c (quota_words k) live table.now books → TellsDepthFirst c serial.now
        → IsPrefix (list_of c) (done_in books) n
        → IfOk result (λ margin. pos margin +ℤ words_in_use (list_of c) books ≡ bound c.quota (list_of c) (periods_ahead n books)) }
{
    let ahead = ahead_of(alloc, table, serial)?;
    Ok(serial.peak + two_quotas(k, ahead) - live)
}
