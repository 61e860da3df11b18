/// Where a frame begins: the number of a list, and a place of it.
#[derive(Clone, Copy, PartialEq, Eq, Debug)]
pub struct FlatStart {
    pub list: u32,
    pub place: usize,
}
