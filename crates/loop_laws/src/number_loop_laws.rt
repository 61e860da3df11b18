ghost use Rattle.loop_laws.specs.NumberLoopLaws.{NumbersLoopsArePlain, PrefixSumsGrowByTheLogarithm, SumsMayBeginAtZero};

/// A loop over numbers that is written out as a call of its helper means the plain loop.
pub fn numbers_loops_are_plain()
    ensures { NumbersLoopsArePlain }
{}

/// The words of a loop that is written out grow by the logarithm of its numbers.
pub fn prefix_sums_grow_by_the_logarithm()
    ensures { PrefixSumsGrowByTheLogarithm }
{}

/// The sum of a loop may as well begin with 0.
pub fn sums_may_begin_at_zero()
    ensures { SumsMayBeginAtZero }
{}
