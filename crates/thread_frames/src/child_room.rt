use thread_state::ForkRoom;

/// The memory of a child that is not yet forked, but for its place: its label and row.
#[derive(Drop)]
pub(crate) struct ChildRoom {
    pub(crate) room: ForkRoom,
    /// The slots whose blocks it takes with it.
    pub(crate) named: Vec<u16>,
}
