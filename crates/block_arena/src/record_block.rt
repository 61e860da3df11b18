use crate::piece::Piece;

/// The block for the record of a thread: the 16 words that a forked thread takes, which nobody reads or writes.
///
/// It is one piece without a list, so it needs no shell, and only a box moves. It comes from
/// [`Pool::take_record`](crate::Pool::take_record) and goes back by
/// [`Pool::give_record`](crate::Pool::give_record).
#[derive(Debug, Drop)]
pub struct RecordBlock {
    pub(crate) piece: Box<Piece>,
}
