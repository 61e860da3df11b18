//! The places of statements and of lists of statements.

ghost use Rattle.std.specs.Prelude.{◌≡◌, ◌<◌, ◌≤◌, ◌∷◌, ◌+◌, ◌^◌, length, IfOk, Some};
ghost use Rattle.node_table.specs.Shown.{expr_shown, kind_shown};
ghost use Rattle.flat_statements.specs.Threads.{rest_of};
ghost use Rattle.flat_code.specs.Fits.{FitsTest, AllFit, FitsKind, FitsNode};
ghost use Rattle.flat_code.specs.Made.{list_made, other_at, arms_made, if_made, while_made, kind_made, node_made};
ghost use Rattle.flat_code.specs.Refused.{IfTooLong, most_places};
ghost use Rattle.flat_code.specs.Shown.{frames_shown, places_shown, table_of};

use crate::arms::Arms;
use crate::instruction::Instruction;
use crate::lower_fail::LowerFail;
use crate::marks::Marks;
use crate::place::Places;
use crate::placing::{
    add_arm_end, add_places, after_test, condition_of, left_places, loop_places, other_place,
    place_after, put_places, set_places, tested_places, with_frame,
};
use crate::scope::Scope;
use crate::site::Site;
use node_table::{CodeExpr, NodeKind};
use std::alloc::{AllocError, Global};
use thread_stack::{Frame, ListOf};

/// The frames before a statement of a list and after it, where these numbers are left after it.
fn marks_of(
    alloc: Global,
    behind: &[Frame],
    list: ListOf,
    next: usize,
    after: &[u32],
) -> Result<Marks, AllocError>
    requires { next + 1 < 2 ^ 64 }
    ensures here { IfOk result (λ m. frames_shown m.here.items ≡ Frame.Statements list next ∷ frames_shown behind.now) }
    ensures rest { IfOk result (λ m. frames_shown m.behind.items ≡ rest_of after.now list (next + 1) (frames_shown behind.now)) }
{
    let here = with_frame(alloc, behind, Frame::Statements { list, next })?;
    let behind = if after.is_empty() {
        behind.to_vec(alloc)?
    } else {
        let next = next + 1;
        with_frame(alloc, behind, Frame::Statements { list, next })?
    };
    Ok(Marks { here, behind })
}

/// The places of a list of statements, which begins at a place.
#[cycle(lower)]
pub(crate) fn lower_list(
    alloc: Global,
    scope: &Scope,
    numbers: &[u32],
    list: ListOf,
    behind: &[Frame],
    place: u32,
    depth: u32,
) -> Result<Places, LowerFail>
    requires { AllFit (FitsNode (table_of scope.now) scope.now.slots scope.now.size depth) numbers.now }
    ensures places { IfOk result (λ v. places_shown v.items
        ≡ list_made (node_made (table_of scope.now) scope.now.slots depth) numbers.now list 0 (frames_shown behind.now) place) }
    ensures long { IfTooLong result (most_places
        ≤ place + length (list_made (node_made (table_of scope.now) scope.now.slots depth) numbers.now list 0 (frames_shown behind.now) place)) }
{
    let mut places = Vec::new(alloc);
    let mut next = 0usize;
    let mut rest = numbers;
    'nodes: while let Some((number, after)) = rest.split_first() {
        let at = place_after(place, places.len())?;
        let marks = marks_of(alloc, behind, list, next, after)?;
        let site = Site {
            number: *number,
            place: at,
            here: &marks.here,
            behind: &marks.behind,
        };
        let node = lower_node(alloc, scope, &site, depth)?;
        add_places(&mut places, node)?;
        next += 1;
        rest = after;
    }
    Ok(places)
}

/// The places of a statement.
#[cycle(lower)]
fn lower_node(alloc: Global, scope: &Scope, site: &Site, depth: u32) -> Result<Places, LowerFail>
    requires { FitsNode (table_of scope.now) scope.now.slots scope.now.size depth site.now.number }
    ensures places { IfOk result (λ v. places_shown v.items
        ≡ node_made (table_of scope.now) scope.now.slots depth site.now.place site.now.number
        (frames_shown site.now.here.now) (frames_shown site.now.behind.now)) }
    ensures long { IfTooLong result (most_places
        ≤ site.now.place + length (node_made (table_of scope.now) scope.now.slots depth site.now.place site.now.number
        (frames_shown site.now.here.now) (frames_shown site.now.behind.now))) }
{
    match scope.table.node(site.number) {
        Some(node) => lower_kind(alloc, scope, site, &node.kind, depth - 1),
        None => unreachable!(),
    }
}

/// The same by what its node does.
#[cycle(lower)]
fn lower_kind(
    alloc: Global,
    scope: &Scope,
    site: &Site,
    kind: &NodeKind,
    depth: u32,
) -> Result<Places, LowerFail>
    requires { FitsKind scope.now.slots scope.now.size (FitsNode (table_of scope.now) scope.now.slots scope.now.size depth)
        (Some (kind_shown kind.now)) }
    ensures places { IfOk result (λ v. places_shown v.items
        ≡ kind_made scope.now.slots (node_made (table_of scope.now) scope.now.slots depth) site.now.number
        (frames_shown site.now.here.now) (frames_shown site.now.behind.now) site.now.place (Some (kind_shown kind.now))) }
    ensures long { IfTooLong result (most_places
        ≤ site.now.place + length (kind_made scope.now.slots (node_made (table_of scope.now) scope.now.slots depth) site.now.number
        (frames_shown site.now.here.now) (frames_shown site.now.behind.now) site.now.place (Some (kind_shown kind.now)))) }
{
    match kind {
        NodeKind::Let { name, value } => Ok(set_places(alloc, scope, *name, value, site.here)?),
        NodeKind::Assign { name, value } => Ok(set_places(alloc, scope, *name, value, site.here)?),
        NodeKind::Put {
            block,
            index,
            value,
        } => Ok(put_places(alloc, scope, *block, index, value, site.here)?),
        NodeKind::If { cond, then, other } => lower_if(
            alloc, scope, site, cond, then, other, depth,
        ),
        NodeKind::While { cond, body } => lower_while(alloc, scope, site, cond, body, depth),
        _ => Ok(left_places(alloc, site.here)?),
    }
}

/// The places of an `if`.
#[cycle(lower)]
fn lower_if(
    alloc: Global,
    scope: &Scope,
    site: &Site,
    cond: &CodeExpr,
    then: &[u32],
    other: &[u32],
    depth: u32,
) -> Result<Places, LowerFail>
    requires { FitsTest scope.now.slots scope.now.size (expr_shown cond.now)
        × AllFit (FitsNode (table_of scope.now) scope.now.slots scope.now.size depth) then.now
        × AllFit (FitsNode (table_of scope.now) scope.now.slots scope.now.size depth) other.now }
    ensures places { IfOk result (λ v. places_shown v.items
        ≡ if_made (node_made (table_of scope.now) scope.now.slots depth) site.now.place site.now.number (expr_shown cond.now) scope.now.slots
        then.now other.now (frames_shown site.now.here.now) (frames_shown site.now.behind.now)) }
    ensures long { IfTooLong result (most_places
        ≤ site.now.place + length (if_made (node_made (table_of scope.now) scope.now.slots depth) site.now.place site.now.number (expr_shown cond.now)
        scope.now.slots then.now other.now (frames_shown site.now.here.now) (frames_shown site.now.behind.now))) }
{
    let condition = condition_of(alloc, scope, cond)?;
    let start = after_test(site.place, &condition)?;
    let list = ListOf::Then(site.number);
    let first = lower_list(alloc, scope, then, list, site.behind, start, depth)?;
    let arms = lower_arms(alloc, scope, site, start, first, other, depth)?;
    let test = Instruction::Unless {
        test: condition.test,
        other: arms.other,
    };
    let mut places = tested_places(alloc, &condition, test, site.here)?;
    add_places(&mut places, arms.places)?;
    Ok(places)
}

/// The places of the arms of an `if`, of which those of the first one are there.
#[cycle(lower)]
fn lower_arms(
    alloc: Global,
    scope: &Scope,
    site: &Site,
    start: u32,
    first: Places,
    other: &[u32],
    depth: u32,
) -> Result<Arms, LowerFail>
    requires { AllFit (FitsNode (table_of scope.now) scope.now.slots scope.now.size depth) other.now }
    ensures place { IfOk result (λ a. a.other ≡ other_at start (places_shown first.items) other.now) }
    ensures places { IfOk result (λ a. places_shown a.places.items
        ≡ arms_made (node_made (table_of scope.now) scope.now.slots depth) site.now.number (frames_shown site.now.behind.now) other.now start
        (places_shown first.items)) }
    ensures long { IfTooLong result (most_places
        ≤ start + length (arms_made (node_made (table_of scope.now) scope.now.slots depth) site.now.number (frames_shown site.now.behind.now) other.now start
        (places_shown first.items))) }
{
    let other_at = other_place(start, first.len(), other)?;
    let list = ListOf::Other(site.number);
    let second = lower_list(alloc, scope, other, list, site.behind, other_at, depth)?;
    let end = place_after(other_at, second.len())?;
    let mut places = first;
    add_arm_end(alloc, &mut places, other, end, site.behind)?;
    add_places(&mut places, second)?;
    Ok(Arms {
        places,
        other: other_at,
    })
}

/// The places of a loop.
#[cycle(lower)]
fn lower_while(
    alloc: Global,
    scope: &Scope,
    site: &Site,
    cond: &CodeExpr,
    body: &[u32],
    depth: u32,
) -> Result<Places, LowerFail>
    requires { FitsTest scope.now.slots scope.now.size (expr_shown cond.now)
        × AllFit (FitsNode (table_of scope.now) scope.now.slots scope.now.size depth) body.now }
    ensures places { IfOk result (λ v. places_shown v.items
        ≡ while_made (node_made (table_of scope.now) scope.now.slots depth) site.now.place site.now.number (expr_shown cond.now) scope.now.slots
        body.now (frames_shown site.now.here.now) (frames_shown site.now.behind.now)) }
    ensures long { IfTooLong result (most_places
        ≤ site.now.place + length (while_made (node_made (table_of scope.now) scope.now.slots depth) site.now.place site.now.number
        (expr_shown cond.now) scope.now.slots body.now (frames_shown site.now.here.now) (frames_shown site.now.behind.now))) }
{
    let condition = condition_of(alloc, scope, cond)?;
    let start = after_test(site.place, &condition)?;
    let again = with_frame(alloc, site.behind, Frame::Again(site.number))?;
    let list = ListOf::Round(site.number);
    let inside = lower_list(alloc, scope, body, list, &again, start, depth)?;
    loop_places(alloc, &condition, site.here, &again, start, inside)
}
