use crate::child_room::ChildRoom;
use block_arena::Shell;
use dag_order::FaultAt;
use thread_run::Forking;
use thread_stack::Branch;

/// The next action of a thread that has come to it, with all the memory that it takes.
#[derive(Drop)]
pub(crate) enum Prepared {
    /// The thread has not come to its next action.
    Nothing,
    /// A Fork.
    Fork {
        forking: Forking,
        room: ChildRoom,
    },
    /// The Join of the newest open child, with the slots whose integers come back.
    Join {
        branch: Branch,
        assigned: Vec<u16>,
    },
    /// An allocation of `len` numbers under a slot.
    Alloc {
        slot: u16,
        len: u32,
        words: u32,
        shell: Shell,
    },
    /// The block of a slot goes back.
    Release {
        slot: u16,
        words: u32,
    },
    /// A Dummy.
    Dummy,
    /// A fault.
    Fault(FaultAt),
    /// The End.
    End,
}
