ghost use Rattle.std.specs.Prelude.{◌≡◌, ◌<◌, ◌+◌, ◌%◌, ◌↔◌, ℕ, length, min, IsTrue, MatchOption};
ghost use Rattle.open_periods.specs.Passed.Play.{IsFirst};
ghost use Rattle.play_rules.specs.Choices.{IsReadyAt, reach_of, SomeReady, CanMove};

use deque_list::List;
use open_periods::PeriodTable;

/// The number that the turn `turn` of a word picks of `n`.
pub fn picked(word: u64, turn: u32, n: u32) -> u32
    requires { 0 < n }
    ensures value { result ≡ (word + turn) % n }
    ensures below { result < n }
{
    let n = u64::from(n);
    ((word % n + u64::from(turn)) % n) as u32
}

/// Whether one of the deques in reach of a thief has a thread to steal. It looks at each of them once.
pub fn some_ready<T>(list: &List<T>, workers: u32) -> bool
    ensures { IsTrue result ↔ SomeReady workers list.now.deques }
{
    for place in 0..list.leftmost(workers) {
        if list.ready_at(place) {
            return true;
        }
    }
    false
}

/// The place of the deque that a thief robs, picked by a word: the first in reach that has a thread to steal; None exactly where none has.
pub fn first_ready<T>(list: &List<T>, workers: u32, word: u64) -> Option<u32>
    ensures { MatchOption result (¬ SomeReady workers list.now.deques)
        (λ place. IsFirst (reach_of workers list.now.deques) word (IsReadyAt list.now.deques) place) }
{
    let reach = list.leftmost(workers);
    for turn in 0..reach {
        let place = picked(word, turn, reach);
        if list.ready_at(place) {
            return Some(place);
        }
    }
    None
}

/// Whether a worker can move: it is not idle, or some deque in reach has a thread to steal.
pub fn can_move(table: &PeriodTable, some_ready: bool, worker: u32) -> bool
    ensures { IsTrue result ↔ CanMove table.now some_ready worker }
{
    if some_ready {
        return true;
    }
    match table.seat(worker as usize) {
        Some(_) => true,
        None => false,
    }
}

/// The worker that moves next, picked by a word: the first that can; None exactly where none can. Whether some deque in reach has a thread to
/// steal is the same for all of them.
pub fn first_mover(table: &PeriodTable, some_ready: bool, workers: u32, word: u64) -> Option<u32>
    ensures { MatchOption result ((worker : ℕ) → worker < workers → ¬ CanMove table.now some_ready worker)
        (λ worker. IsFirst workers word (CanMove table.now some_ready) worker) }
{
    for turn in 0..workers {
        let worker = picked(word, turn, workers);
        if can_move(table, some_ready, worker) {
            return Some(worker);
        }
    }
    None
}
