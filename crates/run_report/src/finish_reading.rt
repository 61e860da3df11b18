ghost use Rattle.std.specs.Prelude.{◌≡◌, MatchOption};
ghost use Rattle.dag_order.specs.declared.fault.FaultKind.{FaultKind};
ghost use Rattle.dag_order.specs.declared.finish.Finish.{Finish};
ghost use Rattle.run_report.specs.Shown.{HasLine};
ghost use Rattle.run_report.specs.Texts.{kind_word, finish_words};

use crate::numbers::natural;
use byte_cuts::{behind, cut_at};
use dag_order::{FaultAt, FaultKind, Finish};

/// The kind of fault that a word names.
fn kind_of(word: &[u8]) -> Option<FaultKind>
    ensures { MatchOption result ((kind : FaultKind) → ¬ (word.now ≡ kind_word kind)) (λ kind. word.now ≡ kind_word kind) }
{
    if word == b"Index".as_slice() {
        Some(FaultKind::Index)
    } else if word == b"Divide".as_slice() {
        Some(FaultKind::Divide)
    } else if word == b"Size".as_slice() {
        Some(FaultKind::Size)
    } else if word == b"Split".as_slice() {
        Some(FaultKind::Split)
    } else if word == b"Depth".as_slice() {
        Some(FaultKind::Depth)
    } else if word == b"Turns".as_slice() {
        Some(FaultKind::Turns)
    } else {
        None
    }
}

/// How the run ended of which this is the finish line, without its LF.
pub fn read_finish(line: &[u8]) -> Option<Finish>
    ensures { MatchOption result
        ((f : Finish) → HasLine f → ¬ (line.now ≡ finish_words f))
        (λ f. (line.now ≡ finish_words f) × HasLine f) }
{
    if line == b"end done".as_slice() {
        return Some(Finish::Done);
    }
    let fault = behind(line, b"end fault ")?;
    let (word, rest) = cut_at(fault, b' ')?;
    let kind = kind_of(word)?;
    let digits = behind(rest, b"line ")?;
    let number = natural(digits)?;
    if number > u64::from(u32::MAX) {
        return None;
    }
    Some(Finish::Faulted(FaultAt {
        kind,
        line: number as u32,
    }))
}
