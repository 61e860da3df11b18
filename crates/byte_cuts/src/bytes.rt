ghost use Rattle.std.specs.Prelude.{◌≡◌, ℕ, ◌++◌, ◌∷◌, List, MatchOption};
ghost use Rattle.byte_cuts.specs.Lacks.{Lacks};

/// The bytes before the first one that is `byte`, and those behind it. None where there is none.
pub fn cut_at(bytes: &[u8], byte: u8) -> Option<(&[u8], &[u8])>
    ensures { MatchOption result
        ((front back : List ℕ) → ¬ (bytes.now ≡ front ++ byte ∷ back))
        (λ cut. (bytes.now ≡ cut.0.now ++ byte ∷ cut.1.now) × Lacks byte cut.0.now) }
{
    for (i, x) in bytes.iter().enumerate() {
        if *x == byte {
            return Some((&bytes[..i], &bytes[i + 1..]));
        }
    }
    None
}

/// The bytes behind a front, where they begin with it.
pub fn behind<'a>(bytes: &'a [u8], front: &[u8]) -> Option<&'a [u8]>
    ensures { MatchOption result
        ((more : List ℕ) → ¬ (bytes.now ≡ front.now ++ more))
        (λ more. bytes.now ≡ front.now ++ more.now) }
{
    bytes.strip_prefix(front)
}
