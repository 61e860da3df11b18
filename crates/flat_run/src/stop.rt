use crate::end::End;

/// Where flat code does not go on: the place, the turns that are left, and why.
#[derive(Clone, Copy)]
pub struct Stop {
    pub place: usize,
    pub turns: u32,
    pub end: End,
}
