ghost use Rattle.std.specs.Prelude.{◌≡◌, ℕ};
ghost use Rattle.depth_first_list.specs.Actions.{Deed, kind_of, weight_of};
ghost use Rattle.deque_machine.specs.Books.{charge as charge_of};

use dag_order::Kind;
use language_limits::RECORD_WORDS;

/// What an action takes of a quota of so many words: a Fork the words of a record block, an Alloc that the quota covers its words, and any
/// other nothing. `change` says by how many words the action raises the words in use.
pub(crate) fn charge(quota: u32, kind: Kind, change: i64) -> u32
    ensures { (deed : Deed) (words : ℕ) → kind ≡ kind_of deed → change ≡ weight_of deed words → result ≡ charge_of quota deed words }
{
    match kind {
        Kind::Fork => RECORD_WORDS,
        Kind::Alloc => covered(quota, change),
        Kind::Join | Kind::Release | Kind::Dummy | Kind::End | Kind::Fault => 0,
    }
}

// The words of an Alloc if the quota covers them, otherwise 0.
fn covered(quota: u32, words: i64) -> u32
    ensures { (deed : Deed) (n : ℕ) → words ≡ weight_of Rattle.depth_first_list.specs.Actions.allocates n
        → result ≡ charge_of quota Rattle.depth_first_list.specs.Actions.allocates n }
{
    match u32::try_from(words) {
        Ok(words) if words <= quota => words,
        _ => 0,
    }
}
