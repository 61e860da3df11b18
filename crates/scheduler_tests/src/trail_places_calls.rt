use dag_order::{ActionId, Kind, ThreadId};
use serial_journal::{Action, Actions};
use std::alloc::{AllocError, Global};
use std::test::Fail;
use trail_check::partners;

// Actions of these kinds. Their names and words do not matter here.
fn actions_of(alloc: Global, kinds: &str) -> Result<Actions, AllocError> {
    let mut actions = Actions::new(alloc);
    for letter in kinds.bytes() {
        let kind = match letter {
            b'f' => Kind::Fork,
            b'j' => Kind::Join,
            b'e' => Kind::End,
            _ => Kind::Dummy,
        };
        actions.reserve()?;
        actions.add(Action {
            name: ActionId {
                by: ThreadId::ROOT,
                index: 0,
            },
            kind,
            change: 0,
        });
    }
    Ok(actions)
}

// The partner of each place, one digit each.
fn told(alloc: Global, kinds: &str) -> Result<Vec<u8>, AllocError> {
    let actions = actions_of(alloc, kinds)?;
    let found = partners(alloc, &actions)?;
    let mut told = Vec::new(alloc);
    for partner in found.iter() {
        told.push(match partner {
            None => b'-',
            Some(place) => b'0'.wrapping_add(u8::try_from(*place).unwrap_or(0)),
        })?;
    }
    Ok(told)
}

// Each row has the kinds of a list (Forks, Joins, Ends and others) and the partner of each place.
const ROWS: &str =
    "| e|- ..e|--- fe.je|13-1- .f.ej.e|-3-43-- fefejje|153431- ffejeje|423254- ffejefejje|423286764-";

#[test]
fn places_have_their_partners(rt: HostRuntime) -> Result<(), Fail> {
    for row in ROWS.split(' ') {
        let (kinds, want) = row.split_once('|').ok_or("a row")?;
        assert!(rt; told(rt.alloc(), kinds)?.as_slice() == want.as_bytes());
    }
    Ok(())
}
