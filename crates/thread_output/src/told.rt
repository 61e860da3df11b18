ghost use Rattle.std.specs.Prelude.{◌≡◌, ◌++◌, ◌∷◌, ◌≤◌, ◌<◌, [], List, length, Some, None, IsErr, IfSome, IfOk, OnOk, OnErr};
ghost use Rattle.language_limits.specs.declared.TheConstants.{GREATEST_COUNT};
ghost use Rattle.thread_points.specs.Laws.{earlier_fault};
ghost use Rattle.thread_output.specs.Joining.{IsJoined};
ghost use Rattle.std.specs.Option.{ForSome};
ghost use Rattle.containers.specs.BoundedList.{entries};
ghost use Rattle.thread_points.specs.Passed.States.{Item, printed, failed};
ghost use Rattle.thread_points.specs.Passed.Run.{lines_of, first_fault};

use dag_order::{FaultAt, Lines};
use language_limits::GREATEST_COUNT;
use std::alloc::{AllocError, Global};
use std::collections::LinkedList;

/// What is told of a part of a run: the numbers that it printed before its first fault, and this fault.
///
/// Where parts with more than [`GREATEST_COUNT`] lines were joined the lines are lost, and from then on memory is said to be wanting.
#[derive(Drop)]
pub struct Told {
    lines: Option<LinkedList<i64>>,
    fault: Option<FaultAt>,
    ghost few: { ForSome lines (λ kept. length kept ≤ GREATEST_COUNT) },
}

impl Told {
    ghost use Rattle.thread_output.specs.Telling.{Tells, fault_of};

    /// Nothing is printed, and there is no fault. It takes no memory.
    pub fn new(alloc: Global) -> Told
        ensures items { Tells result [] }
        ensures fault { fault_of result ≡ None }
    {
        Told {
            lines: Some(LinkedList::new(alloc)),
            fault: None,
        }
    }

    /// The first fault.
    pub fn fault(&self) -> Option<FaultAt>
        ensures value { result ≡ fault_of self.now }
        ensures items { (items : List Item) → Tells self.now items → result ≡ first_fault items }
    {
        self.fault
    }

    /// A number is printed, where no fault stands.
    ///
    /// # Errors
    ///
    /// There is not enough memory, or there are [`GREATEST_COUNT`] lines or more. Nothing is changed.
    pub fn print(&mut self, value: i64) -> Result<(), AllocError>
        requires { fault_of self.old ≡ None }
        ensures ok { (items : List Item) → Tells self.old items → OnOk result (Tells self.new (items ++ printed value ∷ [])) }
        ensures err { OnErr result (self.new ≡ self.old) }
        ensures fault { fault_of self.new ≡ None }
        ensures many { (items : List Item) → Tells self.old items → GREATEST_COUNT ≤ length (lines_of items) → IsErr result }
    {
        let Some(lines) = &mut self.lines else {
            return Err(AllocError);
        };
        if lines.len() >= GREATEST_COUNT as usize {
            return Err(AllocError);
        }
        lines.push_back(value)?;
        Ok(())
    }

    /// A fault stands from now on, unless one does already.
    pub fn mark(&mut self, fault: FaultAt)
        ensures items { (items : List Item) → Tells self.old items → Tells self.new (items ++ failed fault ∷ []) }
        ensures fault { fault_of self.new ≡ earlier_fault (fault_of self.old) (Some fault) }
    {
        if self.fault.is_none() {
            self.fault = Some(fault);
        }
    }

    /// This part with a later part behind it, in constant time and with no memory. Behind a fault the later part tells nothing.
    pub fn then(self, later: Told) -> Told
        ensures items { (items others : List Item) → Tells self items → Tells later others → Tells result (items ++ others) }
        ensures fault { fault_of result ≡ earlier_fault (fault_of self) (fault_of later) }
    {
        if self.fault.is_some() {
            return self;
        }
        Told {
            lines: joined(self.lines, later.lines),
            fault: later.fault,
        }
    }

    /// The lines in one list.
    ///
    /// # Errors
    ///
    /// There is not enough memory, or there are more than [`GREATEST_COUNT`] lines.
    pub fn lines(&self, alloc: Global) -> Result<Lines, AllocError>
        ensures many { (items : List Item) → Tells self.now items → GREATEST_COUNT < length (lines_of items) → IsErr result }
        ensures lines { (items : List Item) → Tells self.now items → IfOk result (λ lines. entries lines ≡ lines_of items) }
    {
        match &self.lines {
            Some(lines) => Ok(Lines::from_vec(flattened(alloc, lines)?)),
            None => Err(AllocError),
        }
    }
}

/// Lines with later lines behind them, unless these are too many.
fn joined(lines: Option<LinkedList<i64>>, later: Option<LinkedList<i64>>) -> Option<LinkedList<i64>>
    requires few { IfSome lines (λ kept. length kept ≤ GREATEST_COUNT) }
    requires few_later { IfSome later (λ kept. length kept ≤ GREATEST_COUNT) }
    ensures few { IfSome result (λ kept. length kept ≤ GREATEST_COUNT) }
    ensures both { IsJoined lines later result }
{
    let (Some(mut lines), Some(mut later)) = (lines, later) else {
        return None;
    };
    if lines.len() + later.len() > GREATEST_COUNT as usize {
        return None;
    }
    let _joined = lines.append(&mut later);
    Some(lines)
}

/// The lines in one list.
fn flattened(alloc: Global, lines: &LinkedList<i64>) -> Result<Vec<i64>, AllocError>
    ensures { IfOk result (λ v. v.items ≡ lines.now) }
{
    Ok(lines.iter().copied().collect(alloc)?)
}
