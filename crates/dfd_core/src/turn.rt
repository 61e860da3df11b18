ghost use Rattle.std.specs.Prelude.{◌≡◌, None};
ghost use Rattle.dfd_core.specs.Cores.{end_of};
ghost use Rattle.dfd_core.specs.Turns.{PicksTurn};

use crate::run::Core;
use scheduler_state::Choices;

/// Whose turn it is.
#[derive(Clone, Copy, PartialEq, Eq, Debug)]
pub struct Turn {
    pub worker: u32,
    /// The word that picks whom an idle worker robs; None exactly where the worker owns a deque.
    pub word: Option<u64>,
}

/// Whose turn it is in a run that has not ended. A first word picks the worker, and an idle one draws a second word for its theft.
pub fn draw_turn<C: Choices>(core: &Core, choices: &mut C) -> Turn
    requires { end_of core.now ≡ None }
    ensures { PicksTurn (C.coming choices.old) (C.coming choices.new) core.now result }
{
    let worker = core.mover(choices.word());
    if core.is_idle(worker) {
        return Turn {
            worker,
            word: Some(choices.word()),
        };
    }
    Turn { worker, word: None }
}
