ghost use Rattle.std.specs.Prelude.{◌≡◌, ◌≤◌, ℕ, take, OnOk, OnErr};
ghost use Rattle.byte_streams.specs.Faults.{Rose};
ghost use Rattle.byte_streams.specs.Sink.{Takes};

use crate::sink::{Sink, SinkFailed};

/// Writes a whole text, by pushing the whole rest of it at each call of the sink.
///
/// Each call takes a byte or fails, so the writing ends. A failure ends it too: the sink has taken a front of the text and
/// is not asked again.
pub fn write_text<W: Sink>(sink: &mut W, text: &[u8]) -> Result<(), SinkFailed>
    ensures whole { OnOk result (Takes (W.taken sink.old) (W.taken sink.new) text.now) }
    ensures front { OnErr result ((count : ℕ) × Takes (W.taken sink.old) (W.taken sink.new) (take count text.now)) }
    ensures quiet { OnOk result (W.faults sink.new ≡ W.faults sink.old) }
    ensures cause { OnErr result (Rose (W.faults sink.old) (W.faults sink.new)) }
{
    let mut written = 0;
    'pushes: while written < text.len() {
        written += sink.push(&text[written..])?;
    }
    Ok(())
}
