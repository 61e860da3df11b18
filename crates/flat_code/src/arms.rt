use crate::place::Places;

/// The places of both arms of an `if`, and the place at which the other one begins.
#[derive(Drop)]
pub(crate) struct Arms {
    pub(crate) places: Places,
    pub(crate) other: u32,
}
