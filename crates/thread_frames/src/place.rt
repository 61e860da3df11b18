//! Where a child comes to be.

ghost use Rattle.std.specs.Prelude.{◌≡◌, ◌≤◌, ◌<◌, [], ◌∷◌, ◌++◌, Some, OnOk, vec_len, vec_capacity};
ghost use Rattle.thread_output.specs.Telling.{Tells};
ghost use Rattle.thread_frames.specs.declared.prepared.Prepared.TheVariants as kinds;

use crate::prepared::Prepared;
use crate::thread::Thread;
use block_arena::RecordBlock;
use containers::Boxed;
use dag_order::ThreadId;
use std::alloc::{AllocError, Global};
use thread_output::Told;
use thread_run::ThreadRun;
use thread_stack::Frame;
use thread_state::ThreadState;

/// For how many frames a child has room as it begins: most children need no more, so that their list never grows.
const FRAMES_OF_A_CHILD: usize = 4;

/// A place on the heap for a child, with room for the frames with which it begins.
#[derive(Drop)]
pub struct Place {
    thread: Boxed<Thread>,
    pub ghost nothing: { thread.prepared ≡ kinds.Nothing },
    pub ghost no_children: { thread.children.items ≡ [] },
    pub ghost no_frames: { thread.run.frames.items ≡ [] },
    pub ghost room: { 1 ≤ vec_capacity thread.run.frames },
}

impl Place {
    /// A new place.
    ///
    /// # Errors
    ///
    /// There is not enough memory.
    pub fn new(alloc: Global) -> Result<Place, AllocError> {
        let blank = Boxed::new(alloc, Thread::blank(alloc))?;
        Place::of(blank)
    }

    /// The place of a thread that is done with, whatever it holds. It takes no memory where the list of frames of this thread is long
    /// enough.
    ///
    /// # Errors
    ///
    /// There is not enough memory.
    pub fn of(thread: Boxed<Thread>) -> Result<Place, AllocError> {
        let mut thread = thread;
        thread.get_mut().clear()?;
        Ok(Place { thread })
    }

    /// The child that comes to be here, before its first statement.
    pub(crate) fn begin(
        self,
        id: ThreadId,
        parent: ThreadId,
        func: Option<u32>,
        state: ThreadState,
        work: Frame,
        block: RecordBlock,
    ) -> Boxed<Thread>
        ensures id { result.id ≡ id }
        ensures parent { result.parent ≡ Some parent }
        ensures func { result.func ≡ func }
        ensures run_func { result.run.func ≡ func }
        ensures state { result.run.state ≡ state }
        ensures frames { result.run.frames.items ≡ work ∷ [] }
        ensures told { Tells result.run.told [] }
        ensures children { result.children.items ≡ [] }
        ensures block { result.record_block ≡ Some block }
        ensures prepared { result.prepared ≡ kinds.Nothing }
    {
        let mut child = self.thread;
        child.get_mut().begin(id, parent, func, state, work, block);
        child
    }
}

impl Thread {
    /// A thread that runs nothing. It takes no memory.
    fn blank(alloc: Global) -> Thread {
        let run = ThreadRun {
            func: None,
            state: ThreadState::blank(alloc),
            frames: Vec::new(alloc),
            told: Told::new(alloc),
        };
        Thread {
            id: ThreadId::ROOT,
            parent: None,
            func: None,
            run,
            children: Vec::new(alloc),
            record_block: None,
            prepared: Prepared::Nothing,
        }
    }

    /// Lets go what a child does not begin with, and makes room for its frames.
    ///
    /// # Errors
    ///
    /// There is not enough memory.
    fn clear(&mut self) -> Result<(), AllocError>
        ensures nothing { OnOk result (self.new.prepared ≡ kinds.Nothing) }
        ensures no_children { OnOk result (self.new.children.items ≡ []) }
        ensures no_frames { OnOk result (self.new.run.frames.items ≡ []) }
        ensures room { OnOk result (1 ≤ vec_capacity self.new.run.frames) }
    {
        self.prepared = Prepared::Nothing;
        self.children.clear();
        self.run.frames.clear();
        self.run.frames.reserve(FRAMES_OF_A_CHILD)
    }

    /// Begins as a child, with its first frame before those that are there.
    fn begin(
        &mut self,
        id: ThreadId,
        parent: ThreadId,
        func: Option<u32>,
        state: ThreadState,
        work: Frame,
        block: RecordBlock,
    )
        requires nothing { self.old.prepared ≡ kinds.Nothing }
        requires room { vec_len self.old.run.frames < vec_capacity self.old.run.frames }
        ensures id { self.new.id ≡ id }
        ensures parent { self.new.parent ≡ Some parent }
        ensures func { self.new.func ≡ func }
        ensures run_func { self.new.run.func ≡ func }
        ensures state { self.new.run.state ≡ state }
        ensures frames { self.new.run.frames.items ≡ self.old.run.frames.items ++ work ∷ [] }
        ensures told { Tells self.new.run.told [] }
        ensures children { self.new.children.items ≡ self.old.children.items }
        ensures block { self.new.record_block ≡ Some block }
        ensures prepared { self.new.prepared ≡ kinds.Nothing }
    {
        let alloc = *self.run.frames.allocator();
        self.id = id;
        self.parent = Some(parent);
        self.func = func;
        self.record_block = Some(block);
        self.run.func = func;
        self.run.state = state;
        self.run.told = Told::new(alloc);
        self.run.frames.push_reserved(work);
    }
}
