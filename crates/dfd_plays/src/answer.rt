use crate::status::Status;

/// What a command answers: its status, and the bytes of the text that it writes.
#[derive(Drop)]
pub struct Answer {
    pub status: Status,
    pub text: Vec<u8>,
}
