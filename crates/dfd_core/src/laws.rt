//! What holds of a core at any time.

ghost use Rattle.std.specs.Prelude.{List as AnyList, ℕ, ◌≤ℤ◌};
ghost use Rattle.depth_first_run.specs.States.{Setting};
ghost use Rattle.depth_first_run.specs.Run.{list_of};
ghost use Rattle.open_periods.specs.Passed.LawfulOrder.{IsLawful};
ghost use Rattle.open_periods.specs.Passed.Moments.{Moment, done_at, live_at};
ghost use Rattle.open_periods.specs.Passed.DequeMachineRuns.{Pair, high_water_mark};
ghost use Rattle.open_periods.specs.Passed.Terms.{machine_of};
ghost use Rattle.open_periods.specs.Passed.Books.{IsPrefix, bound, periods_ahead, periods_marked};
ghost use Rattle.dfd_core.specs.Cores.{IsAt, terms_at};

use crate::run::Core;

/// Whatever was done with a core, the moment at which it is has lawful order and lawful books. The words in use there are at most the
/// depth-first peak and two quotas for each period that is ahead, and the most words so far are at most the peak and two quotas for each
/// period that is marked.
pub fn cores_are_lawful(core: &Core)
    ensures lawful { (c : Setting) (run : AnyList Pair) (m : Moment) → IsAt c core.now run m → IsLawful (machine_of c (terms_at core.now)) m }
    ensures bounded { (c : Setting) (run : AnyList Pair) (m : Moment) (n : ℕ) → IsAt c core.now run m → IsPrefix (list_of c) (done_at m) n
        → live_at (list_of c) m ≤ℤ bound c.quota (list_of c) (periods_ahead n m.books) }
    ensures marked { (c : Setting) (run : AnyList Pair) (m : Moment) → IsAt c core.now run m
        → high_water_mark (list_of c) run ≤ℤ bound c.quota (list_of c) (periods_marked m.books) }
{
    // For the prover alone: what a core ensures of itself is known where it is read.
    let _quota = core.quota();
}
