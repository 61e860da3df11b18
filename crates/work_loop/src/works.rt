//! What a worker has to be so that a loop can work it.
ghost use Rattle.work_loop.specs.Tries.{EndsAs};

/// What a try came to.
#[derive(Clone, Copy, PartialEq, Eq, Debug)]
pub enum Tried<E> {
    /// It did something.
    Did,
    /// It went on and has not come to its end, and what it held is free for others now.
    Runs,
    /// It has work, and did nothing: another worker held a part that it needs.
    Waits,
    /// It has no work, and found none.
    Idles,
    /// The work has ended so.
    Ended(E),
}

/// A worker that tries one thing at a time, with a table and a program that it shares with others. What ends its work is an `E`.
pub trait Works<T, K, E> {
    /// That the worker may try with this table and this program.
    ghost may_try: { T → K → Self → Type 0 };

    /// That both are the same worker, before and after some tries.
    ghost is_same: { Self → Self → Type 0 };

    /// That the worker has ended so.
    ghost has_ended: { Self → E → Type 0 };

    /// Returns its number, which a gate is told.
    fn number(&self) -> u32;

    /// Tries one thing.
    fn try_once(&mut self, table: &T, code: &K) -> Tried<E>
        requires { may_try table.now code.now self.old }
        ensures again { may_try table.now code.now self.new }
        ensures same { is_same self.old self.new }
        ensures ended { EndsAs result (has_ended self.new) };

    /// A worker is the same as itself, before its first try.
    ghost same_itself: { (x : Self) → is_same x x };

    /// It stays the same over one more try.
    ghost same_onward: { (x y z : Self) → is_same x y → is_same y z → is_same x z };
}
