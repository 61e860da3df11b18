//! The texts of one line, each of which says why there is no result.

ghost use Rattle.std.specs.Prelude.{◌≡◌, IfOk, pos};
ghost use Rattle.block_check.specs.Checked.{error_shown};
ghost use Rattle.dfd_plays.specs.Messages.{syntax_word, syntax_text, bad_loop_text, name_taken_text, check_word, check_text};
ghost use Rattle.dfd_plays.specs.Messages.{spent_text, arena_text, deques_text};

use block_check::{CheckError, CheckKind};
use par_text::{SyntaxError, SyntaxKind};
use std::alloc::{AllocError, Global};

/// The line of words that are no command.
pub const USAGE: &str =
    "usage: dfd play|run|peak|check|make|async|trail|verify|loops|expand [options]\n";

/// The line of a source that failed.
pub const READ_FAULT: &str = "read fault\n";

/// The word for a refusal of a text.
fn syntax_word(kind: SyntaxKind) -> &'static str
    ensures { result.now ≡ syntax_word kind }
{
    match kind {
        SyntaxKind::BadByte => "BadByte",
        SyntaxKind::BadToken => "BadToken",
        SyntaxKind::NumberTooLarge => "NumberTooLarge",
        SyntaxKind::Expected => "Expected",
        SyntaxKind::TooDeep => "TooDeep",
        SyntaxKind::TooLong => "TooLong",
        SyntaxKind::TooMany => "TooMany",
    }
}

/// The line of a refused text: the refusal and the byte where it stands.
pub fn syntax_text(alloc: Global, refusal: SyntaxError) -> Result<Vec<u8>, AllocError>
    ensures { IfOk result (λ text. text.items ≡ syntax_text refusal) }
{
    let line = format!(in alloc; "syntax {} at {}\n", syntax_word(refusal.kind), refusal.at)?;
    Ok(line.into_bytes())
}

/// The line of a text with a `par call` that begins no loop: the byte of its `par`.
pub fn bad_loop_text(alloc: Global, at: u32) -> Result<Vec<u8>, AllocError>
    ensures { IfOk result (λ text. text.items ≡ bad_loop_text at) }
{
    let line = format!(in alloc; "syntax BadLoop at {at}\n")?;
    Ok(line.into_bytes())
}

/// The line of a text with a name that the helper of one of its loops has: the byte of the name.
pub fn name_taken_text(alloc: Global, at: u32) -> Result<Vec<u8>, AllocError>
    ensures { IfOk result (λ text. text.items ≡ name_taken_text at) }
{
    let line = format!(in alloc; "syntax NameTaken at {at}\n")?;
    Ok(line.into_bytes())
}

/// The word for a refusal of a program.
fn check_word(kind: CheckKind) -> &'static str
    ensures { result.now ≡ check_word kind }
{
    match kind {
        CheckKind::UnknownName => "UnknownName",
        CheckKind::Redefined => "Redefined",
        CheckKind::WrongKind => "WrongKind",
        CheckKind::WrongCount => "WrongCount",
        CheckKind::SharedBlock => "SharedBlock",
        CheckKind::SharedInt => "SharedInt",
        CheckKind::Gone => "Gone",
        CheckKind::NotFreed => "NotFreed",
        CheckKind::ArmsDiffer => "ArmsDiffer",
        CheckKind::FreesLent => "FreesLent",
        CheckKind::NoMain => "NoMain",
    }
}

/// The line of a refused program: the refusal, the line where it stands and the name that it is of.
pub fn check_text(alloc: Global, refusal: &CheckError) -> Result<Vec<u8>, AllocError>
    ensures { IfOk result (λ text. text.items ≡ check_text (error_shown refusal.now)) }
{
    let kind = check_word(refusal.kind);
    let front = format!(in alloc; "check {kind} line {} name ", refusal.line)?;
    let mut text = front.into_bytes();
    text.extend_from_slice(&refusal.name.bytes)?;
    text.push(b'\n')?;
    Ok(text)
}

/// The line of a run that would do one more action than the limit allows.
pub fn spent_text(alloc: Global, limit: u32) -> Result<Vec<u8>, AllocError>
    ensures { IfOk result (λ text. text.items ≡ spent_text limit) }
{
    let line = format!(in alloc; "stop StepsSpent limit {limit}\n")?;
    Ok(line.into_bytes())
}

/// The line of a run whose next action asks for more words than are left beside the `live` ones that are in use.
pub fn arena_text(alloc: Global, live: u64, asked: u64) -> Result<Vec<u8>, AllocError>
    ensures { IfOk result (λ text. text.items ≡ arena_text (pos live) asked) }
{
    let line = format!(in alloc; "stop ArenaFull live {live} asked {asked}\n")?;
    Ok(line.into_bytes())
}

/// The line of a run in which a theft would make one deque more than there may be.
pub fn deques_text(alloc: Global, deques: u32) -> Result<Vec<u8>, AllocError>
    ensures { IfOk result (λ text. text.items ≡ deques_text deques) }
{
    let line = format!(in alloc; "stop DequesFull deques {deques}\n")?;
    Ok(line.into_bytes())
}
