use block_arena::Pool;
use containers::Boxed;
use deque_list::List;
use open_periods::PeriodTable;
use space_ledger::Moves;
use thread_frames::{Ended, Place, Thread};
use thread_map::ThreadMap;

/// What a run by workers holds between two events.
#[derive(Drop)]
pub struct Scheduler {
    /// The deques, with the threads that are ready or run.
    pub list: List<Boxed<Thread>>,
    /// The threads that wait, each under the id of the child that it waits for.
    pub waiting: ThreadMap<Boxed<Thread>>,
    /// A place for the thread that is forked next, where there is one.
    pub place: Option<Place>,
    /// A thread that has ended, where there is one, whose place on the heap can be the next `place`. What is in it is of no account.
    pub used_place: Option<Boxed<Thread>>,
    /// The results of ended threads that are not joined, each under the id of its thread.
    pub results: ThreadMap<Ended>,
    /// The periods.
    pub table: PeriodTable,
    /// The words.
    pub pool: Pool,
    /// By how much each action changed the words that are out.
    pub moves: Moves,
    /// How many actions were done.
    pub done: u32,
}
