ghost use Rattle.std.specs.Prelude.{List, IfOk};
ghost use Rattle.containers.specs.BoundedList.{entries};
ghost use Rattle.depth_first_list.specs.Actions.{Action};
ghost use Rattle.trail_check.specs.Listed.{AreListed};
ghost use Rattle.trail_check.specs.Partners.{ArePartners};

use crate::pairing::Pairing;
use serial_journal::Actions;
use std::alloc::{AllocError, Global};

/// Returns the partner of each place of a depth-first list.
///
/// The partner of a Fork is the place of the child's End, that of a Join is the End of the child that it joins, and that of a child's End
/// is the Join of it. Other places have none. It is one pass, which keeps two stacks of places.
///
/// # Errors
///
/// `AllocError` if the list of partners or a stack needs memory and there is none.
pub fn partners(alloc: Global, actions: &Actions) -> Result<Vec<Option<u32>>, AllocError>
    ensures { (l : List Action) → AreListed l (entries actions.now) → IfOk result (λ p. ArePartners l p.items) }
{
    let actions = actions.as_slice();
    let mut pairing = Pairing::new(alloc, actions.len())?;
    for (place, action) in actions.iter().enumerate() {
        pairing.pass(place as u32, action.kind)?;
    }
    Ok(pairing.partners)
}
