//! Depth-first runs action by action: names, kinds, weights and births, each worked out by hand.

use accepted_source::accept;
use dag_order::ThreadId;
use depth_first_list::Quota;
use serial_meaning::{Serial, depth_first};
use std::alloc::{AllocError, Global};
use std::fmt::Write;
use std::process::Abort;

/// The depth-first run of a text with a quota of 16 words. A text that is no accepted program counts as want of memory.
fn run(alloc: Global, text: &str) -> Result<Serial, AllocError> {
    let (Some(k), Ok(program)) = (Quota::new(16), accept(alloc, text.as_bytes())) else {
        return Err(AllocError);
    };
    match depth_first(alloc, &program, k, 1_000_000) {
        Ok(serial) => Ok(serial),
        Err(_) => Err(AllocError),
    }
}

/// The number of a thread in these runs: 0 for the root, and else as the threads are born.
fn number(id: ThreadId) -> u32 {
    if id == ThreadId::ROOT {
        0
    } else {
        id.nth.saturating_add(1)
    }
}

/// The actions of a run, with the number of the thread, the index, the kind and the weight of each, and after them the births, with the number
/// of the parent and which of its forks it is.
fn trace(rt: &impl Abort, alloc: Global, serial: &Serial) -> String {
    let mut told = String::new(alloc);
    let mut mark = "";
    for action in serial.actions.as_slice() {
        let (by, name) = (number(action.name.by), action.name);
        write!(
            told,
            "{mark}{by}.{} {:?} {}",
            name.index, action.kind, action.change
        )
        .expect(rt, "memory");
        mark = ", ";
    }
    told.push_str(";").expect(rt, "memory");
    for birth in serial.births.as_slice() {
        write!(told, " {}.{}", number(birth.parent), birth.ordinal).expect(rt, "memory");
    }
    told
}

/// What programs do with a quota of 16 words. A thread that meets a fault gives back what it holds in all its open calls; one that joins a
/// faulted child is faulted too; and a faulted thread joins its open children from the newest to the oldest, and gives back what they
/// bring.
const TRACES: &str = "
0.0 Fork 16, 1.0 Fork 16, 2.0 Dummy 0, 2.1 End -16, 1.1 Dummy 0, 1.2 Join 0, 1.3 End -16, 0.1 Dummy 0, 0.2 Join 0, 0.3 Alloc 48, 0.4 Release -48, 0.5 End 0; 0.1 1.1 | fn main() { alloc b = 40; free b; }
0.0 Fork 16, 1.0 Fork 16, 2.0 Alloc 16, 2.1 Release -16, 2.2 End -16, 1.1 Join 0, 1.2 End -16, 0.1 Alloc 16, 0.2 Fork 16, 3.0 End -16, 0.3 Join 0, 0.4 Release -16, 0.5 Join 0, 0.6 End 0; 0.1 1.1 0.2 | fn mk() { alloc b = 1; par { } and { } return own b; } fn main() { par { par { alloc a = 16; free a; } and { } } and { call f(); } } fn f() { call own b = mk(); free b; }
0.0 Alloc 16, 0.1 Alloc 16, 0.2 Alloc 16, 0.3 Alloc 16, 0.4 Fault -64, 0.5 End 0; | fn f(use u, own o) { alloc n = 3; split u at 5 into l, r { } free n; free o; } fn main() { alloc a = 16; alloc b = 7; alloc c = 1; call f(use a, own b); free a; free c; }
0.0 Alloc 16, 0.1 Fault -16, 0.2 End 0; | fn main() { alloc b = 9; split b at 0 into l, r { r[8] = 1; split r at 0 into m, n { alloc s = 1048577; free s; } } free b; }
0.0 Alloc 16, 0.1 Fork 16, 1.0 Fork 16, 2.0 Fault 0, 2.1 End -16, 1.1 Join 0, 1.2 End -16, 0.2 Join -16, 0.3 End 0; 0.1 1.1 | fn main() { alloc a = 16; par { par { print 1 / 0; } and { } print 1; } and { a[0] = 2; print a[0]; } free a; }
0.0 Alloc 16, 0.1 Alloc 16, 0.2 Alloc 16, 0.3 Fork 16, 1.0 Fault -16, 1.1 End -16, 0.4 Join -32, 0.5 End 0; 0.1 | fn f(use u) { alloc n = 2; par { n[2] = 1; } and { u[0] = 1; } free n; } fn main() { alloc a = 1; alloc c = 1; call f(use a); free a; free c; }
0.0 Alloc 16, 0.1 Alloc 16, 0.2 Alloc 16, 0.3 Alloc 16, 0.4 Fork 16, 1.0 End -16, 0.5 Fork 16, 2.0 End -16, 0.6 Fault -16, 0.7 Join -16, 0.8 Join -32, 0.9 End 0; 0.1 0.2 | fn main() { alloc a = 16; alloc b = 4; alloc c = 5; alloc d = 1; par { a[0] = 1; b[0] = 1; } and { par { c[0] = 1; } and { d[0] = 1 % 0; } print 1; } print 2; free a; free b; free c; free d; }
0.0 Alloc 16, 0.1 Alloc 16, 0.2 Alloc 16, 0.3 Fork 16, 1.0 Fault -16, 1.1 End -16, 0.4 Fork 16, 2.0 End -16, 0.5 Fault -16, 0.6 Join -16, 0.7 Join 0, 0.8 End 0; 0.1 0.2 | fn main() { alloc a = 16; alloc b = 4; alloc c = 5; par { a[16] = 1; } and { par { b[0] = 1; } and { c[0] = 1 / 0; } } free a; free b; free c; }
";

/// The program of a row does what the row says.
fn goes_so(rt: &impl Abort, alloc: Global, row: &str) {
    let (want, text) = row.split_once('|').expect(rt, "a row");
    let serial = run(alloc, text).expect(rt, "a run");
    let told = trace(rt, alloc, &serial);
    assert!(rt; told.as_str() == want.trim(), "{told} {text}");
}

#[test]
fn runs_go_action_by_action(rt: HostRuntime) {
    for row in TRACES.trim().split('\n') {
        goes_so(&rt, rt.alloc(), row);
    }
}
