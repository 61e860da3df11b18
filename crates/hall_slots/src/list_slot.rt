use containers::Boxed;
use list_changes::ListPart;
use play_rules::RunEnd;
use thread_frames::{Ended, Thread};

/// The list of a hall: the deques with their owners, what waits, the results and the closed periods, and besides these the workers that are
/// in, and the end of the run, if one is kept.
#[derive(Drop)]
pub struct ListSlot {
    pub part: ListPart<Boxed<Thread>, Ended>,
    /// The workers that are in.
    pub crew: Vec<u32>,
    /// The end that is kept, if any.
    pub end: Option<RunEnd>,
}
