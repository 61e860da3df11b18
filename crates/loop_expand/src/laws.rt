ghost use Rattle.std.specs.Prelude.{◌≡◌, ℕ, List, length, map, Result, Ok};
ghost use Rattle.par_text.specs.Rule.{Token};
ghost use Rattle.par_text.specs.Lexing.{text_tokens};
ghost use Rattle.loop_expand.specs.declared.expand_fail.ExpandFail.{ExpandFail};
ghost use Rattle.loop_expand.specs.Expansion.{StartsCall, Nowhere, loop_bytes, with_others, Apart, lexeme_of, Expands};
ghost use Rattle.loop_expand.specs.Loops.{Loop, AreLoops};

/// Each text has an expansion or a refusal.
pub fn a_text_has_an_answer()
    ensures { (text : List ℕ) → (answer : Result (List ℕ) ExpandFail) × Expands text answer }
{}

/// A text has one expansion, or one refusal at one place, and not both.
pub fn a_text_has_one_answer()
    ensures { (text : List ℕ) (a b : Result (List ℕ) ExpandFail) → Expands text a → Expands text b → a ≡ b }
{}

/// A text without a loop is its own expansion.
pub fn a_text_without_loops_stays()
    ensures { (text : List ℕ) (ts : List Token) → text_tokens text ≡ Ok ts → Nowhere StartsCall (map lexeme_of ts)
        → Expands text (Ok text) }
{}

/// The loops of a text stand one behind the other.
pub fn loops_stand_apart()
    ensures { (text : List ℕ) (ts : List Token) (ls : List Loop) → text_tokens text ≡ Ok ts → AreLoops (map lexeme_of ts) ls
        → Apart 0 ls (length text) }
{}

/// What is no loop stays: with the bytes of each loop in its place, a text is itself.
pub fn other_bytes_stay()
    ensures { (text : List ℕ) (ts : List Token) (ls : List Loop) → text_tokens text ≡ Ok ts → AreLoops (map lexeme_of ts) ls
        → with_others (loop_bytes text) text 0 0 ls ≡ text }
{}
