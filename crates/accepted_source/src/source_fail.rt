use block_check::CheckError;
use par_text::SyntaxError;

/// Why bytes are no accepted source.
#[derive(Drop)]
pub enum SourceFail {
    /// The bytes are no text.
    Syntax(SyntaxError),
    /// The program of the text breaks a rule of ownership.
    Check(CheckError),
    /// There was not enough memory to read it.
    OutOfMemory,
}
