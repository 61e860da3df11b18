use par_ownership::CheckKind;
use par_tree::Name;

/// The first refusal of a program: why, at which line, and for which name. The line is that of a
/// statement, of a `return` or of a `fn`; for a block that is not freed it is that of its declaration.
#[derive(Drop)]
pub struct CheckError {
    pub kind: CheckKind,
    pub line: u32,
    pub name: Name,
}
