use crate::instruction::Instruction;
use thread_stack::Frame;

/// The frames that a thread has inside its function, the next one last, as on its stack.
pub type Mark = Vec<Frame>;

/// A place of flat code: what is there, and the frames of a thread that is before the statement to which the place belongs.
#[derive(Drop)]
pub struct Place {
    pub what: Instruction,
    pub mark: Mark,
}

/// Places, the first one first.
pub type Places = Vec<Place>;
