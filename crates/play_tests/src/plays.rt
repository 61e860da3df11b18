//! Plays of whole programs by workers, with the words that pick who moves and whom a thief robs.

use crate::players::{
    Lists, Numbers, Player, output_of, play_to_end, player_of, report_of, scheduler_of, step_of,
};
use std::alloc::Global;
use std::process::Abort;
use trail_record::{ListChoices, RunEnd};

/// The words of a row, one digit each.
fn words_of(rt: &impl Abort, alloc: Global, digits: &str) -> ListChoices {
    let mut words = Vec::new(alloc);
    for digit in digits.trim().bytes() {
        let word = u64::from(digit.saturating_sub(b'0'));
        words.push(word).expect(rt, "memory");
    }
    ListChoices::new(words)
}

/// What a play came to: the stop that it met, or how it finished, what it printed, and its numbers.
fn told(rt: &impl Abort, alloc: Global, player: &Player, end: RunEnd) -> String {
    let text = match end {
        RunEnd::Stopped(stop) => format!(in alloc; "{stop:?}"),
        RunEnd::Finished(finish) => {
            let lines = output_of(rt, player);
            let report = report_of(player);
            format!(in alloc;
                "{finish:?} {:?} periods {} ahead {} high {}",
                lines.as_slice(),
                report.periods,
                report.ahead,
                report.high
            )
        }
    };
    text.expect(rt, "memory")
}

/// The number in a part of a row.
pub(crate) fn number(part: &str) -> u32 {
    part.trim().parse::<u32>().unwrap_or(0)
}

/// The lists that a part of a row names.
pub(crate) fn lists_of(part: &str) -> Lists {
    if part.trim() == "ready" {
        Lists::Ready
    } else {
        Lists::Deques
    }
}

/// Plays by two workers: `deques` or `ready`, the quota, the words of the arena, the words of choice, what the play comes to, and the program.
const PLAYS: &str = "
deques | 16 | 1024 | 000101000 | Done [1, 2, 3] periods 2 ahead 1 high 16 | fn main() { par { print 1; } and { print 2; } print 3; }
deques | 32 | 1024 | 0001001110000 | Done [] periods 2 ahead 1 high 48 | fn main() { par { alloc a = 16; free a; } and { alloc b = 16; free b; } }
deques | 32 | 32 | 0001001110000 | ArenaFull { live: 32, asked: 16 } | fn main() { par { alloc a = 16; free a; } and { alloc b = 16; free b; } }
deques | 4096 | 1024 | 00010110000 | Faulted(FaultAt { kind: Divide, line: 1 }) [] periods 2 ahead 1 high 16 | fn main() { par { print 1 / 0; } and { print 2 % 0; } }
ready | 16 | 1024 | 001000000 | Done [1, 2, 3] periods 2 ahead 1 high 16 | fn main() { par { print 1; } and { print 2; } print 3; }
";

/// The play of a row comes to what the row says.
fn play_row(rt: &impl Abort, alloc: Global, row: &str) -> Option<()> {
    let mut parts = row.split('|');
    let lists = lists_of(parts.next()?);
    let numbers = Numbers {
        k: number(parts.next()?),
        workers: 2,
        arena: number(parts.next()?),
        limit: 4_000_000,
        most: 4_096,
    };
    let mut choices = words_of(rt, alloc, parts.next()?);
    let want = parts.next()?.trim();
    let text = parts.next()?;
    let mut player = player_of(rt, alloc, text, lists, numbers);
    let end = play_to_end(&mut player, &mut choices);
    let got = told(rt, alloc, &player, end);
    assert_eq!(rt; got.as_str(), want, "{text}");
    Some(())
}

#[test]
fn plays_come_to_what_the_rules_say(rt: HostRuntime) {
    for row in PLAYS.trim().split('\n') {
        play_row(&rt, rt.alloc(), row).expect(&rt, "a row");
    }
}

/// 64 leaves of a tree of forks, each of which takes 60 blocks one after another, forks 100 times deep, and takes 60 more. So each leaf is
/// begun before one has forked, and each has forked before one has ended.
const WIDE: &str = "
fn hold(n) { while n > 0 { alloc a = 16; free a; n = n - 1; } }
fn chain(n) { if n > 0 { par { call chain(n - 1); } and { } } else { call hold(60); } }
fn spread(n) { if n > 0 { par { call spread(n - 1); } and { call spread(n - 1); } } else { call hold(60); call chain(100); } }
fn main() { call spread(6); }
";

/// The most entries that there are at once while each of 64 workers moves 300 times, one after another in the order of their numbers.
fn most_entries(rt: &impl Abort, player: &mut Player) -> u32 {
    let mut most = 0;
    for turn in 0..19_200u32 {
        step_of(rt, player, turn % 64, 0);
        most = most.max(scheduler_of(player).list.len());
    }
    most
}

/// A ready list has a place for each thread, though a list of deques has 4,096: here are the 6,463 forked ones and the root.
#[test]
fn a_ready_list_has_a_place_for_each_thread(rt: HostRuntime) {
    let numbers = Numbers {
        k: 65_536,
        workers: 64,
        arena: 1_048_576,
        limit: 4_000_000,
        most: 4_096,
    };
    let mut player = player_of(&rt, rt.alloc(), WIDE, Lists::Ready, numbers);
    let most = most_entries(&rt, &mut player);
    let mut choices = words_of(&rt, rt.alloc(), "0");
    play_to_end(&mut player, &mut choices);
    let report = report_of(&player);
    assert!(rt; [most, report.periods, report.ahead] == [6_464, 6_464, 6_363]);
    assert!(rt; report.high == 104_432);
}
