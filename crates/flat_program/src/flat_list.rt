use flat_code::Places;

/// The flat code of a list of statements in a function with so many slots, for rows of `size` slots.
#[derive(Drop)]
pub struct FlatList {
    pub places: Places,
    pub slots: u16,
    pub size: u16,
    /// How many frames a mark has at most.
    pub deepest: usize,
}
