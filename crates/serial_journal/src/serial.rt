ghost use Rattle.std.specs.Prelude.{◌<◌};

use crate::action::Actions;
use dag_order::{Births, Finish, Lines};

/// What a depth-first run gives.
#[derive(Drop)]
pub struct Serial {
    /// The first fault in depth-first order, or `Done` where there is none.
    pub finish: Finish,
    /// The numbers that are printed before that fault.
    pub output: Lines,
    /// All actions, in depth-first order.
    pub actions: Actions,
    /// The births of all forked threads, in the order of their Forks. They are the births of one period, number 1:
    /// the Fork with number `nth`, from 0, among the actions gives the thread `{ period: 1, nth }`.
    pub births: Births,
    /// The greatest number of live words behind any of the first actions, at least 0.
    pub peak: u64,
    /// It is counted with a sign.
    pub ghost small: { peak < 9223372036854775808 },
}
