//! The names of branches.

ghost use Rattle.std.specs.Prelude.{◌≡◌, IfOk};
ghost use Rattle.par_names.specs.Named.{body_of};
ghost use Rattle.par_names.specs.Rows.{rows_tree};

use crate::entry::Entry;
pub(crate) use par_names::{NamedBody, is_name};
use par_tree::Body;
use std::alloc::{AllocError, Global};

/// Walks the statements that a statement owns for their names. Tests for the visible names are cheap.
pub(crate) fn named<'a>(
    alloc: Global,
    visible: &[Entry<'a>],
    body: &'a Body,
) -> Result<NamedBody<'a>, AllocError>
    ensures { IfOk result (λ b. body_of b ≡ rows_tree body.now) }
{
    let mut asked = Vec::new(alloc);
    for entry in visible {
        asked.push(entry.name)?;
    }
    NamedBody::of(alloc, body, &asked)
}
