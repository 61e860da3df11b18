ghost use Rattle.std.specs.Prelude.{◌≡◌, ◌≤◌, ◌<◌, ◌++◌, ℕ, List, length, IfOk, MatchResult, vec_len, take};
ghost use Rattle.byte_streams.specs.ReadFail.{CauseOf};
ghost use Rattle.byte_streams.specs.Source.{Gives, IsSpent, IsRead};

use crate::read_fail::ReadFail;
use crate::source::Source;
use std::alloc::Global;

/// How many bytes are asked for at once.
const BUFFER: usize = 4_096;

/// Puts the next bytes of the source behind `text`, by way of `buffer`, and answers how many.
fn pull_into<S: Source>(
    source: &mut S,
    buffer: &mut [u8],
    text: &mut Vec<u8>,
) -> Result<usize, ReadFail>
    ensures fits { IfOk result (λ count. count ≤ length buffer.new) }
    ensures text { IfOk result (λ count. text.new.items ≡ text.old.items ++ take count buffer.new) }
    ensures gives { IfOk result (λ count. Gives (S.left source.old) (S.left source.new) (take count buffer.new)) }
    ensures end { IfOk result (λ count. count ≡ 0 → 0 < length buffer.new → IsSpent (S.left source.new)) }
    ensures goes_on { (bytes : List ℕ) × Gives (S.left source.old) (S.left source.new) bytes }
    ensures cause { MatchResult result
        (λ _. S.faults source.new ≡ S.faults source.old)
        (λ why. CauseOf why (S.faults source.old) (S.faults source.new)) }
{
    let count = source.pull(buffer)?;
    text.extend_from_slice(&buffer[..count])?;
    Ok(count)
}

/// Reads a source to its end, or its first `most` bytes, by a buffer of 4,096.
///
/// Each call of the source gives a byte, ends or fails, so the reading ends. A failure ends it too: the source is not
/// asked again, and what was read before is lost. Its fault is told as such, and want of memory comes without one.
pub fn read_source<S: Source>(
    alloc: Global,
    source: &mut S,
    most: usize,
) -> Result<Vec<u8>, ReadFail>
    ensures read { IfOk result (λ text. IsRead most (S.left source.old) (S.left source.new) text.items) }
    ensures short { IfOk result (λ text. vec_len text ≤ most) }
    ensures goes_on { (bytes : List ℕ) × Gives (S.left source.old) (S.left source.new) bytes }
    ensures cause { MatchResult result
        (λ _. S.faults source.new ≡ S.faults source.old)
        (λ why. CauseOf why (S.faults source.old) (S.faults source.new)) }
{
    let mut buffer = [0; BUFFER];
    let mut text = Vec::new(alloc);
    'pulls: while text.len() < most {
        let room = (most - text.len()).min(BUFFER);
        if pull_into(source, &mut buffer[..room], &mut text)? == 0 {
            break;
        }
    }
    Ok(text)
}
