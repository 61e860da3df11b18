ghost use Rattle.std.specs.Prelude.{◌≡◌, ℕ, List};
ghost use Rattle.par_text.specs.Judging.{Verdict, Judges};

/// Bytes are a text with one tree, or they are refused for one reason at one place.
pub fn bytes_have_one_verdict()
    ensures { (text : List ℕ) (v w : Verdict) → Judges text v → Judges text w → v ≡ w }
{}

/// Bytes have a verdict: no text falls between the grammar and its refusals.
pub fn bytes_have_a_verdict()
    ensures { (text : List ℕ) → (v : Verdict) × Judges text v }
{}
