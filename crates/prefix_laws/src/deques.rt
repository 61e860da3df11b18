//! What a core with deques shows of the laws.

ghost use Rattle.std.specs.Prelude.{◌≡◌, ℕ, List as AnyList, IfOk, pos, ◌+ℤ◌};
ghost use Rattle.depth_first_run.specs.States.{Setting};
ghost use Rattle.depth_first_run.specs.Run.{list_of};
ghost use Rattle.deque_machine.specs.Moments.{Moment, Rises, done_at, live_at, threads_in};
ghost use Rattle.deque_machine.specs.Runs.{Pair};
ghost use Rattle.deque_machine.specs.Books.{IsPrefix, bound, periods_ahead};
ghost use Rattle.dfd_core.specs.Cores.{IsAt};
ghost use Rattle.prefix_laws.specs.Prefixes.{IsSerialOf, TellsDepthFirst};

use crate::deque_labels::labels_of;
use crate::margin::margin_of;
use crate::prefix::{ahead_of, prefix_of};
use dag_order::Label;
use dfd_core::Core;
use serial_journal::Serial;
use std::alloc::{AllocError, Global};

/// The labels of the threads in the deques, from left to right and in each from top to bottom.
///
/// # Errors
///
/// There is not enough memory.
pub fn leaves(alloc: Global, core: &Core) -> Result<Vec<Label>, AllocError>
    ensures moment { (c : Setting) (run : AnyList Pair) (m : Moment) → IsAt c core.now run m
        → IfOk result (λ labels. labels.items ≡ threads_in m.deques) }
    ensures rise { IfOk result (λ labels. Rises labels.items) }
{
    labels_of(alloc, core.scheduler())
}

/// How many actions of the depth-first run stand in books, from the first on and without a gap.
///
/// The time goes with the product of the actions that were done and those of the depth-first run.
///
/// # Errors
///
/// There is not enough memory.
pub fn prefix_split(alloc: Global, core: &Core, serial: &Serial) -> Result<u32, AllocError>
    requires { IsSerialOf core.now serial.now }
    ensures { (c : Setting) (run : AnyList Pair) (m : Moment) → IsAt c core.now run m → TellsDepthFirst c serial.now
        → IfOk result (λ n. IsPrefix (list_of c) (done_at m) n) }
{
    prefix_of(alloc, &core.scheduler().table, serial)
}

/// How many periods, closed or open, ran an action that is not among these.
///
/// It takes time as [`prefix_split`] does.
///
/// # Errors
///
/// There is not enough memory.
pub fn ahead_now(alloc: Global, core: &Core, serial: &Serial) -> Result<u32, AllocError>
    requires { IsSerialOf core.now serial.now }
    ensures { (c : Setting) (run : AnyList Pair) (m : Moment) (n : ℕ) → IsAt c core.now run m → TellsDepthFirst c serial.now
        → IsPrefix (list_of c) (done_at m) n → IfOk result (λ ahead. ahead ≡ periods_ahead n m.books) }
{
    ahead_of(alloc, &core.scheduler().table, serial)
}

/// How many words more might be in use under the space bound: the peak of the depth-first run and two quotas for each period that is
/// ahead, without the words in use.
///
/// It takes time as [`prefix_split`] does.
///
/// # Errors
///
/// There is not enough memory. The bound always has 64 bits.
pub fn bound_margin(alloc: Global, core: &Core, serial: &Serial) -> Result<u64, AllocError>
    requires { IsSerialOf core.now serial.now }
    ensures { (c : Setting) (run : AnyList Pair) (m : Moment) (n : ℕ) → IsAt c core.now run m → TellsDepthFirst c serial.now
        → IsPrefix (list_of c) (done_at m) n
        → IfOk result (λ margin. pos margin +ℤ live_at (list_of c) m ≡ bound c.quota (list_of c) (periods_ahead n m.books)) }
{
    margin_of(
        alloc,
        &core.scheduler().table,
        serial,
        core.quota(),
        core.live(),
    )
}
