//! What a thread is, how the root begins, and the way to the next action.

ghost use Rattle.std.specs.Prelude.{vec_len, vec_capacity, ◌-◌, ◌≡◌, ◌≤◌, ◌<◌, [], ℕ, Some, None, IfOk, OnOk, OnErr, Result, Ok, false, is_some};
ghost use Rattle.dag_order.specs.Births.{root as root_id};
ghost use Rattle.thread_state.specs.Passed.States.{Setting};
ghost use Rattle.depth_first_list.specs.QuotaWords.{quota_words};
ghost use Rattle.std.specs.Prelude.{slice_get};
ghost use Rattle.language_limits.specs.declared.TheConstants.{GREATEST_COUNT};
ghost use Rattle.node_table.specs.Table.{Function};
ghost use Rattle.node_table.specs.Codes.{code_shown};
ghost use Rattle.thread_state.specs.Settings.{IsSettingOf};
ghost use Rattle.block_arena.specs.Size.{words_taken};
ghost use Rattle.thread_frames.specs.Views.{newest, id_of};
ghost use Rattle.thread_frames.specs.Memory.{RoomFits, frames_put, children_put};
ghost use Rattle.thread_frames.specs.Slots.{taken_slots as slots_taken, assigned_slots as slots_assigned};
ghost use Rattle.thread_frames.specs.Preparing.{Prepares, BeginsMain, AreMainFrames};

use crate::child_room::ChildRoom;
use crate::next::Next;
use crate::open_child::OpenChild;
use crate::prepared::Prepared;
use crate::thread::Thread;
use block_arena::pieces_for;
use dag_order::{Label, Placed, ThreadId};
use depth_first_list::Quota;
use language_limits::PIECE_WORDS;
use node_table::NodeKind;
use std::alloc::{AllocError, Global};
use thread_output::Told;
use thread_run::{Code, Ready, ThreadRun};
use thread_stack::{Branch, Frame, ListOf};
use thread_state::ThreadState;

impl Placed for Thread {
    ghost use Rattle.thread_frames.specs.Views.{label_of as its_label};

    ghost label_of = { λ thread. its_label thread };

    fn label(&self) -> &Label {
        self.run.state.label()
    }
}

impl Thread {
    ghost use Rattle.thread_frames.specs.Views.{children_of, next_of, label_of, done_of, forks_of, thread_words};
    ghost use Rattle.thread_frames.specs.Points.{IsAtPoint};
    ghost use Rattle.thread_frames.specs.Actions.{IsStill, IsOfTheList, JoinsNewest};

    /// The id of the thread.
    pub fn id(&self) -> ThreadId
        ensures { result ≡ self.now.id }
    {
        self.id
    }

    /// The thread that forked it; None exactly for the root.
    pub fn parent(&self) -> Option<ThreadId>
        ensures { result ≡ self.now.parent }
    {
        self.parent
    }

    /// How many actions it has done.
    pub fn done(&self) -> u32
        ensures { result ≡ done_of self.now }
    {
        self.run.state.done()
    }

    /// How many forks it has done.
    pub fn forks(&self) -> u32
        ensures value { result ≡ forks_of self.now }
        ensures counted { forks_of self.now ≤ done_of self.now }
    {
        self.run.state.forks()
    }

    /// The root of a program before its first statement.
    ///
    /// # Errors
    ///
    /// There is not enough memory.
    pub fn root(alloc: Global, code: &Code) -> Result<Thread, AllocError>
        ensures point { (k : ℕ) → IfOk result (IsAtPoint (code_shown code.now) k) }
        ensures id { IfOk result (λ thread. thread.id ≡ root_id) }
        ensures parent { IfOk result (λ thread. thread.parent ≡ None) }
        ensures label { IfOk result (λ thread. label_of thread ≡ []) }
        ensures done { IfOk result (λ thread. done_of thread ≡ 0) }
        ensures children { IfOk result (λ thread. children_of thread ≡ []) }
        ensures words { IfOk result (λ thread. thread_words thread ≡ 0) }
        ensures next { IfOk result (λ thread. next_of thread ≡ None) }
    {
        // For the prover alone: the table is that of an accepted program.
        code.is_accepted();
        let begun = run_of_main(alloc, code)?;
        Ok(Thread {
            id: ThreadId::ROOT,
            parent: None,
            func: begun.func,
            run: begun,
            children: Vec::new(alloc),
            record_block: None,
            prepared: Prepared::Nothing,
        })
    }

    /// Runs up to the next action, takes the memory that it needs, and tells it. It is not done. Called again before the action is done, it
    /// tells the same and changes nothing.
    ///
    /// # Errors
    ///
    /// There is not enough memory. The actions, the children and the words of the thread are as they were; its plain state may be in the
    /// middle, and it is of no further use but to give its blocks back.
    pub fn advance(&mut self, alloc: Global, code: &Code, k: Quota) -> Result<Next, AllocError>
        requires point { IsAtPoint (code_shown code.now) (quota_words k) self.old }
        requires count { done_of self.old < GREATEST_COUNT }
        ensures point { OnOk result (IsAtPoint (code_shown code.now) (quota_words k) self.new) }
        ensures next { IfOk result (λ next. next_of self.new ≡ Some next) }
        ensures newest { IfOk result (λ next. JoinsNewest next (children_of self.new)) }
        ensures still { IsStill self.old self.new }
        ensures list { (c : Setting) → IsSettingOf (code_shown code.now) (quota_words k) c
            → IfOk result (λ next. ∥ IsOfTheList c self.new next ∥₁) }
        ensures again { (next : Next) → next_of self.old ≡ Some next → (result ≡ Ok next) × (self.new ≡ self.old) }
    {
        if let Some(next) = self.told() {
            return Ok(next);
        }
        self.go_on(alloc, code, k, 0)?;
        match self.told() {
            Some(next) => Ok(next),
            None => unreachable!(),
        }
    }

    /// Goes on towards the next action for some `most` turns of loops and calls, and says whether it has come there: then the action is prepared, and
    /// [`Thread::advance`] tells it. No action is done.
    ///
    /// # Errors
    ///
    /// There is not enough memory. The actions, the children and the words of the thread are as they were; its plain state may be in the
    /// middle, and it is of no further use but to give its blocks back.
    pub fn step_on(
        &mut self,
        alloc: Global,
        code: &Code,
        k: Quota,
        most: u32,
    ) -> Result<bool, AllocError>
        requires point { IsAtPoint (code_shown code.now) (quota_words k) self.old }
        requires count { done_of self.old < GREATEST_COUNT }
        ensures point { OnOk result (IsAtPoint (code_shown code.now) (quota_words k) self.new) }
        ensures came { IfOk result (λ came. came ≡ is_some (next_of self.new)) }
        ensures still { IsStill self.old self.new }
    {
        if self.told().is_some() {
            return Ok(true);
        }
        let stop = self.run.state.turns().saturating_sub(most);
        self.go_on(alloc, code, k, stop)
    }

    /// The action that is prepared.
    fn told(&self) -> Option<Next>
        ensures { result ≡ next_of self.now }
    {
        match &self.prepared {
            Prepared::Nothing => None,
            Prepared::Fork { .. } => Some(Next::Fork),
            Prepared::Join { .. } => Some(Next::Join {
                child: newest_id(&self.children),
            }),
            Prepared::Alloc { words, .. } => Some(Next::Alloc { words: *words }),
            Prepared::Release { words, .. } => Some(Next::Release { words: *words }),
            Prepared::Dummy => Some(Next::Dummy),
            Prepared::Fault(fault) => Some(Next::Fault(*fault)),
            Prepared::End => Some(Next::End),
        }
    }

    /// Goes on, where no action is prepared, until one is, or until fewer than `stop` turns of loops and calls are left, and says which: true for an action.
    fn go_on(&mut self, alloc: Global, code: &Code, k: Quota, stop: u32) -> Result<bool, AllocError>
        requires point { IsAtPoint (code_shown code.now) (quota_words k) self.old }
        requires count { done_of self.old < GREATEST_COUNT }
        requires nothing { next_of self.old ≡ None }
        ensures point { OnOk result (IsAtPoint (code_shown code.now) (quota_words k) self.new) }
        ensures came { IfOk result (λ came. came ≡ is_some (next_of self.new)) }
        ensures stopped { result ≡ Ok false → self.new.run.state.turns < stop }
        ensures still { IsStill self.old self.new }
    {
        // For the prover alone: the table is that of an accepted program.
        code.is_accepted();
        let Some(ready) = self.run.advance(alloc, code, k, stop)? else {
            return Ok(false);
        };
        let prepared = prepared_for(&self.run.state, alloc, code, ready)?;
        reserve(&mut self.run.frames, &mut self.children, &prepared)?;
        self.prepared = prepared;
        Ok(true)
    }
}

/// The id of the newest open child.
fn newest_id(children: &Vec<OpenChild>) -> ThreadId
    ensures { result ≡ id_of (newest children.now.items) }
{
    match children.last() {
        Some(child) => child.id,
        None => ThreadId::ROOT,
    }
}

/// What `main` runs, before its first statement.
///
/// # Errors
///
/// There is not enough memory.
fn run_of_main(alloc: Global, code: &Code) -> Result<ThreadRun, AllocError>
    ensures { IfOk result (BeginsMain (code_shown code.now)) }
{
    // For the prover alone: the table is that of an accepted program.
    code.is_accepted();
    let main = code.main();
    let count = slots_of(code, main);
    let frames = main_frames(alloc, code, main)?;
    let state = ThreadState::root(alloc, count)?;
    Ok(ThreadRun {
        func: Some(main),
        state,
        frames,
        told: Told::new(alloc),
    })
}

/// How many slots the function of a number has; 0 where there is none.
fn slots_of(code: &Code, number: u32) -> u16
    ensures { (f : Function) → slice_get (code_shown code.now).funcs number ≡ Some f → result ≡ f.slots }
{
    match code.func(number) {
        Some(func) => func.slots,
        None => 0,
    }
}

/// The frames of `main`: its statements, and its end.
///
/// # Errors
///
/// There is not enough memory.
fn main_frames(alloc: Global, code: &Code, main: u32) -> Result<Vec<Frame>, AllocError>
    ensures { IfOk result (λ frames. AreMainFrames (code_shown code.now) main frames.items) }
{
    let mut frames = Vec::with_capacity(alloc, 2)?;
    frames.push_reserved(Frame::AnswersMain);
    match code.frame_from(ListOf::Body(main), 0) {
        None => Ok(frames),
        Some(frame) => {
            frames.push_reserved(frame);
            Ok(frames)
        }
    }
}

/// An action with all the memory that it takes, but for the room in the thread itself.
///
/// # Errors
///
/// There is not enough memory.
fn prepared_for(
    state: &ThreadState,
    alloc: Global,
    code: &Code,
    ready: Ready,
) -> Result<Prepared, AllocError>
    requires { state.now.done < GREATEST_COUNT }
    ensures { IfOk result (Prepares (code_shown code.now) state.now ready) }
{
    match ready {
        Ready::Fork(forking) => {
            let room = child_room(state, alloc, code, forking.branch)?;
            Ok(Prepared::Fork { forking, room })
        }
        Ready::Join(branch) => {
            let assigned = assigned_slots(alloc, code, branch)?;
            Ok(Prepared::Join { branch, assigned })
        }
        Ready::Alloc { slot, len, shell } => {
            let words = words_for(len)?;
            Ok(Prepared::Alloc {
                slot,
                len,
                words,
                shell,
            })
        }
        Ready::Release { slot, words } => {
            let words = words_given(words)?;
            Ok(Prepared::Release { slot, words })
        }
        Ready::Dummy => Ok(Prepared::Dummy),
        Ready::Fault(fault) => Ok(Prepared::Fault(fault)),
        Ready::End => Ok(Prepared::End),
    }
}

/// The memory of a child that will do a branch.
///
/// # Errors
///
/// There is not enough memory.
fn child_room(
    state: &ThreadState,
    alloc: Global,
    code: &Code,
    branch: Branch,
) -> Result<ChildRoom, AllocError>
    requires { state.now.done < GREATEST_COUNT }
    ensures room { IfOk result (λ child. RoomFits state.now branch child.room) }
    ensures slots { IfOk result (λ child. child.named.items ≡ slots_taken (code_shown code.now) branch) }
{
    let room = match branch {
        Branch::Par(_) => state.prepare_fork(alloc)?,
        Branch::Dummies => state.prepare_dummies(alloc)?,
    };
    Ok(ChildRoom {
        room,
        named: named_slots(alloc, code, branch)?,
    })
}

/// The slots whose blocks a branch takes with it.
///
/// # Errors
///
/// There is not enough memory.
fn named_slots(alloc: Global, code: &Code, branch: Branch) -> Result<Vec<u16>, AllocError>
    ensures { IfOk result (λ slots. slots.items ≡ slots_taken (code_shown code.now) branch) }
{
    let Branch::Par(number) = branch else {
        return Ok(Vec::new(alloc));
    };
    let Some(node) = code.node(number) else {
        return Ok(Vec::new(alloc));
    };
    match &node.kind {
        NodeKind::Both { left_blocks, .. } => left_blocks.to_vec(alloc),
        _ => Ok(Vec::new(alloc)),
    }
}

/// The slots to whose integers a branch assigns.
///
/// # Errors
///
/// There is not enough memory.
fn assigned_slots(alloc: Global, code: &Code, branch: Branch) -> Result<Vec<u16>, AllocError>
    ensures { IfOk result (λ slots. slots.items ≡ slots_assigned (code_shown code.now) branch) }
{
    let Branch::Par(number) = branch else {
        return Ok(Vec::new(alloc));
    };
    let Some(node) = code.node(number) else {
        return Ok(Vec::new(alloc));
    };
    match &node.kind {
        NodeKind::Both { left_assigned, .. } => left_assigned.to_vec(alloc),
        _ => Ok(Vec::new(alloc)),
    }
}

/// The words of a block of `len` numbers.
///
/// # Errors
///
/// They are more than 32 bits hold, and so more than any arena has.
fn words_for(len: u32) -> Result<u32, AllocError>
    ensures value { IfOk result (λ words. words ≡ words_taken len) }
    ensures many { OnErr result (4294967296 ≤ words_taken len) }
{
    match pieces_for(len).checked_mul(PIECE_WORDS) {
        Some(words) => Ok(words),
        None => Err(AllocError),
    }
}

/// The words of a block that goes back.
///
/// # Errors
///
/// They are more than 32 bits hold, and so more than any arena has.
fn words_given(words: u64) -> Result<u32, AllocError>
    ensures value { IfOk result (λ given. given ≡ words) }
    ensures many { OnErr result (4294967296 ≤ words) }
{
    match u32::try_from(words) {
        Ok(words) => Ok(words),
        Err(_) => Err(AllocError),
    }
}

/// Room for what an action puts: a Fork two frames and an open child, and the others nothing.
///
/// # Errors
///
/// There is not enough memory.
fn reserve(
    frames: &mut Vec<Frame>,
    children: &mut Vec<OpenChild>,
    prepared: &Prepared,
) -> Result<(), AllocError>
    ensures frames { frames.new.items ≡ frames.old.items }
    ensures children { children.new.items ≡ children.old.items }
    ensures room { OnOk result (frames_put prepared.now ≤ vec_capacity frames.new - vec_len frames.new) }
    ensures room_children { OnOk result (children_put prepared.now ≤ vec_capacity children.new - vec_len children.new) }
{
    if let Prepared::Fork { .. } = prepared {
        frames.reserve(2)?;
        children.reserve(1)?;
    }
    Ok(())
}
