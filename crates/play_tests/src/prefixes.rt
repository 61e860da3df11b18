//! What cores show in the middle of plays of the laws of their machine.

ghost use Rattle.std.specs.Prelude.{IfOk};
ghost use Rattle.prefix_laws.specs.Prefixes.{IsSerialOf};

use crate::plays::number;
use accepted_source::accept;
use block_arena::Pool;
use dag_order::Label;
use depth_first_list::Quota;
use frame_code::lower;
use prefix_laws::{ahead_now, bound_margin, leaves, prefix_split};
use serial_meaning::{Serial, depth_first};
use std::alloc::{AllocError, Global};
use std::fmt::Write;
use std::process::Abort;
use trail_record::Core;

/// A core, and the depth-first run that it is compared with. Both are let go by a call, so that the steps of that are proved once, and not
/// at each exit of what owns them.
struct Compared {
    core: Core,
    serial: Serial,
}

impl Drop for Compared {
    fn drop(self) {
        let Compared {
            core: _core,
            serial: _serial,
        } = self;
    }
}

/// The core of a run of a text, and its depth-first run. A number that is out of its range, and a text that is no accepted program, count
/// as want of memory.
fn begun(alloc: Global, text: &str, k: u32, workers: u32) -> Result<Compared, AllocError>
    ensures { IfOk result (λ both. IsSerialOf both.core both.serial) }
{
    let Some(k) = Quota::new(k) else {
        return Err(AllocError);
    };
    let Ok(program) = accept(alloc, text.as_bytes()) else {
        return Err(AllocError);
    };
    let Ok(serial) = depth_first(alloc, &program, k, 1_000) else {
        return Err(AllocError);
    };
    let code = lower(alloc, program)?;
    let Ok(pool) = Pool::new(alloc, 1_024) else {
        return Err(AllocError);
    };
    if workers < 1 || 64 < workers {
        return Err(AllocError);
    }
    let core = Core::new(alloc, code, k, workers, pool, 1_000, 64)?;
    Ok(Compared { core, serial })
}

/// Lets workers move, one a digit. A worker that steals robs the first deque that it can.
fn let_move(core: &mut Core, serial: &Serial, workers: &str)
    requires { IsSerialOf core.old serial.now }
    ensures { IsSerialOf core.new serial.now }
{
    'digits: for digit in workers.trim().bytes() {
        let worker = u32::from(digit.saturating_sub(b'0'));
        if worker < core.workers() {
            core.step(worker, 0);
        }
    }
}

/// How many actions are done without a gap, how many periods are ahead, and how many words are left below the space bound, in the core of a
/// row after the moves of the row.
fn bound_behind(
    both: &mut Compared,
    alloc: Global,
    moves: &str,
) -> Result<(u32, u32, u64), AllocError>
    requires { IsSerialOf both.old.core both.old.serial }
{
    let_move(&mut both.core, &both.serial, moves);
    let prefix = prefix_split(alloc, &both.core, &both.serial)?;
    let ahead = ahead_now(alloc, &both.core, &both.serial)?;
    Ok((
        prefix,
        ahead,
        bound_margin(alloc, &both.core, &both.serial)?,
    ))
}

/// A row of a table: the quota; the workers; the workers that move, one after another; what the core shows then; and the program.
#[derive(Drop)]
pub(crate) struct Row<'a> {
    pub k: u32,
    pub workers: u32,
    pub moves: &'a str,
    pub want: &'a str,
    pub text: &'a str,
}

/// The parts of a row.
pub(crate) fn row_of(row: &str) -> Option<Row<'_>> {
    let mut parts = row.split('|');
    Some(Row {
        k: number(parts.next()?),
        workers: number(parts.next()?),
        moves: parts.next()?,
        want: parts.next()?.trim(),
        text: parts.next()?.trim(),
    })
}

/// Adds labels to a text.
pub(crate) fn tell_labels(rt: &impl Abort, text: &mut String, labels: &[Label]) {
    for label in labels {
        write!(text, "{:?} ", label.ordinals()).expect(rt, "memory");
    }
}

/// The core of a row shows what the row says: the labels of the threads in its deques, the numbers of `bound_behind`, and the words in use.
fn show_row(rt: &impl Abort, alloc: Global, row: &Row) {
    let Ok(mut both) = begun(alloc, row.text, row.k, row.workers) else {
        panic!(rt; "no core");
    };
    let told = bound_behind(&mut both, alloc, row.moves).expect(rt, "memory");
    let (prefix, ahead, margin) = told;
    let mut text = String::new(alloc);
    tell_labels(
        rt,
        &mut text,
        &leaves(alloc, &both.core).expect(rt, "memory"),
    );
    let live = both.core.live();
    write!(
        text,
        "prefix {prefix}, ahead {ahead}, live {live}, margin {margin}"
    )
    .expect(rt, "memory");
    assert!(rt; text.as_str() == row.want, "{text} {}", row.text);
}

/// One worker after a tree of dummies, two workers of whom one runs ahead, and random moves, for which `reference/` shows the same.
const MOMENTS: &str = "
16 | 1 | 0000000000 | [1, 1] [1] [] prefix 3, ahead 2, live 32, margin 80 | fn main() { alloc b = 40; free b; }
16 | 1 | | [] prefix 0, ahead 0, live 0, margin 48 | fn main() { alloc b = 40; free b; }
32 | 2 | 00101 | [1] [] prefix 2, ahead 1, live 48, margin 48 | fn main() { par { alloc a = 16; free a; } and { alloc b = 16; free b; } }
16 | 3 | 1012002012020001100021020 | [1, 1] [1] [2, 1, 1] [2, 1] [2] prefix 2, ahead 5, live 80, margin 144 | fn main() { par { par { alloc a = 16; free a; } and { print 1; } } and { par { alloc b = 40; free b; } and { print 2; } } }
32 | 4 | 1030101231021012000133233221110232320031 | [] prefix 16, ahead 0, live 0, margin 64 | fn main() { par { par { alloc a = 16; free a; } and { print 1; } } and { par { alloc b = 40; free b; } and { print 2; } } }
16 | 2 | 101100111110011001111101100100100 | [2, 1, 1] [2] prefix 11, ahead 2, live 48, margin 80 | fn main() { par { par { alloc a = 16; free a; } and { print 1; } } and { par { alloc b = 40; free b; } and { print 2; } } }
16 | 3 | 1110011210121211210000002 | [2] [] prefix 7, ahead 0, live 48, margin 96 | fn f(n) { if n > 0 { alloc b = 20; par { call f(n - 1); } and { call f(n - 1); } free b; } } fn main() { call f(3); }
32 | 4 | 1031220132210333330330101310200010200131 | [1, 1] [1] [2] [] prefix 5, ahead 5, live 272, margin 192 | fn f(n) { if n > 0 { alloc b = 20; par { call f(n - 1); } and { call f(n - 1); } free b; } } fn main() { call f(3); }
16 | 2 | 111100111110001110001001011010100 | [2, 2] [2] [] prefix 14, ahead 3, live 96, margin 144 | fn f(n) { if n > 0 { alloc b = 20; par { call f(n - 1); } and { call f(n - 1); } free b; } } fn main() { call f(3); }
16 | 3 | 0120021120011102211211000 | [1, 1] [1, 2] [1] [2] [] prefix 6, ahead 3, live 64, margin 144 | fn main() { alloc a = 100; free a; par { alloc b = 33; b[40] = 1; free b; } and { alloc c = 20; free c; } }
32 | 4 | 1312130320031313203330111013132110001311 | [] prefix 15, ahead 0, live 0, margin 112 | fn main() { alloc a = 100; free a; par { alloc b = 33; b[40] = 1; free b; } and { alloc c = 20; free c; } }
16 | 2 | 010101110011100010000010011000010 | [1] [2] [] prefix 14, ahead 2, live 32, margin 144 | fn main() { alloc a = 100; free a; par { alloc b = 33; b[40] = 1; free b; } and { alloc c = 20; free c; } }
";

#[test]
fn cores_show_their_laws(rt: HostRuntime) {
    for row in MOMENTS.trim().split('\n') {
        let row = row_of(row).expect(&rt, "a row");
        show_row(&rt, rt.alloc(), &row);
    }
}
