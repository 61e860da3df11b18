ghost use Rattle.std.specs.Prelude.{◌≡◌, ◌+◌, ℕ};

/// The words that decide which worker moves and which deque a thief tries first.
pub trait Choices {
    /// The word that comes so many words later.
    ghost coming: { Self → ℕ → ℕ };

    /// The next word.
    fn word(&mut self) -> u64
        ensures value { result ≡ coming self.old 0 }
        ensures later { (i : ℕ) → coming self.new i ≡ coming self.old (i + 1) };
}

/// Gives the words of a list, and then 0 for ever.
#[derive(Drop)]
pub struct ListChoices {
    words: Vec<u64>,
    place: usize,
}

impl ListChoices {
    ghost use Rattle.std.specs.Prelude.{slice_index};
    ghost use Rattle.scheduler_state.specs.ListChoices.{coming_word};

    pub fn new(words: Vec<u64>) -> ListChoices
        ensures { (i : ℕ) → coming_word result i ≡ slice_index words.items i }
    {
        ListChoices { words, place: 0 }
    }
}

impl Choices for ListChoices {
    ghost use Rattle.scheduler_state.specs.ListChoices.{coming_word};

    ghost coming = { coming_word };

    fn word(&mut self) -> u64 {
        match self.words.get(self.place) {
            Some(word) => {
                let word = *word;
                self.place += 1;
                word
            }
            None => 0,
        }
    }
}
