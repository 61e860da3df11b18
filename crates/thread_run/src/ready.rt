use block_arena::Shell;
use dag_order::FaultAt;
use thread_stack::{Branch, Frame};

/// The next action of a thread, with the memory that it needs. What it comes from is off the stack.
#[derive(Drop)]
pub enum Ready {
    /// A Fork.
    Fork(Forking),
    /// The Join of the newest open child.
    Join(Branch),
    /// An allocation of `len` numbers under a slot.
    Alloc { slot: u16, len: u32, shell: Shell },
    /// The block of a slot goes back, which takes so many words.
    Release { slot: u16, words: u64 },
    /// A Dummy.
    Dummy,
    /// A fault.
    Fault(FaultAt),
    /// The End of the thread.
    End,
}

/// A Fork that is ready: what the child runs, and what its parent does itself before it joins the child.
#[derive(Drop)]
pub struct Forking {
    /// What the child runs, as its Join needs it.
    pub branch: Branch,
    /// The first frame of the child.
    pub work: Frame,
    /// The frame of the parent's own part.
    pub own: Frame,
}
