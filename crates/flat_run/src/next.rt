use crate::end::End;

/// What an instruction leads to.
#[derive(Clone, Copy)]
pub(crate) enum Next {
    /// It goes on at a place, with so many turns.
    Goes { place: usize, turns: u32 },
    /// It does not go on.
    Ends(End),
}
