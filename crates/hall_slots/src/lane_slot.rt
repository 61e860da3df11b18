use containers::Boxed;
use deque_list::Lane;
use open_periods::Period;
use thread_frames::Thread;

/// A period that runs, and the worker for whom it is open.
#[derive(Drop)]
pub struct Running {
    pub worker: u32,
    pub period: Period,
}

/// The threads of a deque, and the period that runs in it, if any. A slot whose deque is not in the list has neither.
#[derive(Drop)]
pub struct LaneSlot {
    pub lane: Lane<Boxed<Thread>>,
    pub running: Option<Running>,
}
