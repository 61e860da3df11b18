//! What cores with a ready list show in the middle of plays of the laws of their machine.

ghost use Rattle.std.specs.Prelude.{IfOk};
ghost use Rattle.prefix_laws.specs.Prefixes.{IsSerialOfList};

use crate::prefixes::{Row, row_of, tell_labels};
use accepted_source::accept;
use async_core::{Arena, AsyncCore};
use block_arena::Pool;
use depth_first_list::Quota;
use frame_code::lower;
use prefix_laws::{async_margin, entries};
use serial_meaning::{Serial, depth_first};
use std::alloc::{AllocError, Global};
use std::fmt::Write;
use std::process::Abort;

/// A core, and the depth-first run that it is compared with. Both are let go by a call, so that the steps of that are proved once, and not
/// at each exit of what owns them.
struct Compared {
    core: AsyncCore,
    serial: Serial,
}

impl Drop for Compared {
    fn drop(self) {
        let Compared {
            core: _core,
            serial: _serial,
        } = self;
    }
}

/// The core of a run of a text, and its depth-first run. A number that is out of its range, and a text that is no accepted program, count
/// as want of memory.
fn begun(alloc: Global, text: &str, k: u32, workers: u32) -> Result<Compared, AllocError>
    ensures { IfOk result (λ both. IsSerialOfList both.core both.serial) }
{
    let Some(k) = Quota::new(k) else {
        return Err(AllocError);
    };
    let Ok(program) = accept(alloc, text.as_bytes()) else {
        return Err(AllocError);
    };
    let Ok(serial) = depth_first(alloc, &program, k, 1_000) else {
        return Err(AllocError);
    };
    let code = lower(alloc, program)?;
    let Ok(pool) = Pool::new(alloc, 1_024) else {
        return Err(AllocError);
    };
    if workers < 1 || 64 < workers {
        return Err(AllocError);
    }
    let Some(arena) = Arena::of(pool) else {
        return Err(AllocError);
    };
    let core = AsyncCore::new(alloc, code, k, workers, arena, 1_000)?;
    Ok(Compared { core, serial })
}

/// Lets workers move, one a digit.
fn let_move(core: &mut AsyncCore, serial: &Serial, workers: &str)
    requires { IsSerialOfList core.old serial.now }
    ensures { IsSerialOfList core.new serial.now }
{
    'digits: for digit in workers.trim().bytes() {
        let worker = u32::from(digit.saturating_sub(b'0'));
        if worker < core.workers() {
            core.step(worker);
        }
    }
}

/// How many words are left in the core of a row after the moves of the row.
fn margin_behind(both: &mut Compared, alloc: Global, moves: &str) -> Result<u64, AllocError>
    requires { IsSerialOfList both.old.core both.old.serial }
{
    let_move(&mut both.core, &both.serial, moves);
    async_margin(alloc, &both.core, &both.serial)
}

/// The core of a row shows what the row says: the labels of the threads in its entries, the words in use, and how many are left.
fn show_row(rt: &impl Abort, alloc: Global, row: &Row) {
    let Ok(mut both) = begun(alloc, row.text, row.k, row.workers) else {
        panic!(rt; "no core");
    };
    let margin = margin_behind(&mut both, alloc, row.moves).expect(rt, "memory");
    let mut text = String::new(alloc);
    tell_labels(
        rt,
        &mut text,
        &entries(alloc, &both.core).expect(rt, "memory"),
    );
    write!(text, "live {}, margin {margin}", both.core.live()).expect(rt, "memory");
    assert!(rt; text.as_str() == row.want, "{text} {}", row.text);
}

/// Moments for which `reference/` shows the same.
const MOMENTS: &str = "
16 | 2 | 01 | [] live 0, margin 16 | fn main() { par { print 1; } and { print 2; } print 3; }
16 | 2 | 010 | [1] [] live 16, margin 0 | fn main() { par { print 1; } and { print 2; } print 3; }
16 | 2 | 0101 | [1] [] live 16, margin 0 | fn main() { par { print 1; } and { print 2; } print 3; }
16 | 2 | 01011 | [1] live 16, margin 0 | fn main() { par { print 1; } and { print 2; } print 3; }
16 | 2 | 010110 | [] live 0, margin 16 | fn main() { par { print 1; } and { print 2; } print 3; }
32 | 2 | 00101 | [1] [] live 48, margin 48 | fn main() { par { alloc a = 16; free a; } and { alloc b = 16; free b; } }
16 | 1 | 000000000 | [1] [] live 16, margin 32 | fn main() { alloc b = 40; free b; }
";

#[test]
fn ready_lists_show_their_laws(rt: HostRuntime) {
    for row in MOMENTS.trim().split('\n') {
        let row = row_of(row).expect(&rt, "a row");
        show_row(&rt, rt.alloc(), &row);
    }
}
