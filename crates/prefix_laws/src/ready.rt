//! What a core with a ready list shows of the laws.

ghost use Rattle.std.specs.Prelude.{◌≡◌, ℕ, List as AnyList, IfOk, pos, ◌+ℤ◌};
ghost use Rattle.depth_first_run.specs.States.{Setting};
ghost use Rattle.depth_first_run.specs.Run.{list_of};
ghost use Rattle.deque_machine.specs.Moments.{Moment, Rises, done_at, live_at, threads_in};
ghost use Rattle.deque_machine.specs.Runs.{Pair};
ghost use Rattle.deque_machine.specs.Books.{IsPrefix, bound, periods_ahead};
ghost use Rattle.async_core.specs.Cores.{IsAt};
ghost use Rattle.prefix_laws.specs.Prefixes.{IsSerialOfList, TellsDepthFirst};

use crate::deque_labels::labels_of;
use crate::margin::margin_of;
use async_core::AsyncCore;
use dag_order::Label;
use serial_journal::Serial;
use std::alloc::{AllocError, Global};

/// The labels of the threads in the entries of a ready list, from the first on.
///
/// # Errors
///
/// There is not enough memory.
pub fn entries(alloc: Global, core: &AsyncCore) -> Result<Vec<Label>, AllocError>
    ensures moment { (c : Setting) (run : AnyList Pair) (m : Moment) → IsAt c core.now run m
        → IfOk result (λ labels. labels.items ≡ threads_in m.deques) }
    ensures rise { IfOk result (λ labels. Rises labels.items) }
{
    labels_of(alloc, core.scheduler())
}

/// How many words more might be in use under the space bound, as [`bound_margin`](crate::bound_margin).
///
/// # Errors
///
/// There is not enough memory. The bound always has 64 bits.
pub fn async_margin(alloc: Global, core: &AsyncCore, serial: &Serial) -> Result<u64, AllocError>
    requires { IsSerialOfList core.now serial.now }
    ensures { (c : Setting) (run : AnyList Pair) (m : Moment) (n : ℕ) → IsAt c core.now run m → TellsDepthFirst c serial.now
        → IsPrefix (list_of c) (done_at m) n
        → IfOk result (λ margin. pos margin +ℤ live_at (list_of c) m ≡ bound c.quota (list_of c) (periods_ahead n m.books)) }
{
    margin_of(
        alloc,
        &core.scheduler().table,
        serial,
        core.quota(),
        core.live(),
    )
}
