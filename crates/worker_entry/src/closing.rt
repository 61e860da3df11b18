use play_rules::RunEnd;
use space_ledger::{Books, Moves};
use thread_frames::Ended;

/// What a hall gives that is closed.
#[derive(Drop)]
pub struct Closing {
    /// How its run ended.
    pub end: RunEnd,
    /// The periods.
    pub books: Books,
    /// By how much each action changed the words in use.
    pub moves: Moves,
    /// The result of the root; None exactly where the run was stopped.
    pub root: Option<Ended>,
}
