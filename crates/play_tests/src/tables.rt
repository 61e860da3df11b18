//! Node tables as large as a text can have them, and their copies.

use crate::plays::number;
use accepted_source::accept;
use block_check::SetsFail;
use frame_code::{Code, NodeTable, lower, table_of};
use std::alloc::Global;
use std::fmt::Write;
use std::process::Abort;

/// A front, a piece that is repeated, how often, and a back. In the piece `#` is the number of the copy, and `^` the number of the next one.
/// Then how many nodes the table has, and how many functions: 256 names in one function, 1,024 functions, of which each but the last one,
/// `main`, calls the one behind it, and 2,000 statements.
const TEXTS: &str = "
fn main() {| let x# = #;|256| }|256|1
|fn f#() { call f^(); } |1022|fn f1022() { } fn main() { call f0(); }|1023|1024
fn main() {| print #;|2000| }|2000|1
";

/// A front, so many copies of a piece, and a back.
fn repeated(rt: &impl Abort, alloc: Global, [front, piece, times, back]: [&str; 4]) -> String {
    let mut text = String::new(alloc);
    text.push_str(front).expect(rt, "memory");
    for i in 0..number(times) {
        for letter in piece.chars() {
            let written = match letter {
                '#' => write!(text, "{i}"),
                '^' => write!(text, "{}", i.saturating_add(1)),
                letter => text.push(letter),
            };
            written.expect(rt, "memory");
        }
    }
    text.push_str(back).expect(rt, "memory");
    text
}

/// The code of a text.
pub(crate) fn code_of(rt: &impl Abort, alloc: Global, text: &str) -> Code {
    let Ok(program) = accept(alloc, text.as_bytes()) else {
        panic!(rt; "an accepted text");
    };
    lower(alloc, program).expect(rt, "memory")
}

/// The node table of a text.
pub(crate) fn table_in(rt: &impl Abort, alloc: Global, text: &str) -> NodeTable {
    let Ok(program) = accept(alloc, text.as_bytes()) else {
        panic!(rt; "an accepted text");
    };
    table_of(alloc, &program).expect(rt, "memory")
}

/// A table has so many nodes and functions.
fn is_large(rt: &impl Abort, code: &Code, nodes: u32, functions: u32) {
    assert!(rt; code.len() == nodes && code.main().saturating_add(1) == functions);
    assert!(rt; code.func(functions).is_none());
}

/// The table of a row is as large as the row says, and so are its copy and the copy of that.
fn is_copied(rt: &impl Abort, alloc: Global, row: &str) -> Option<()> {
    let mut parts = row.split('|');
    let pieces = [parts.next()?, parts.next()?, parts.next()?, parts.next()?];
    let (nodes, functions) = (number(parts.next()?), number(parts.next()?));
    let code = code_of(rt, alloc, &repeated(rt, alloc, pieces));
    is_large(rt, &code, nodes, functions);
    let copy = code.copy(alloc).expect(rt, "memory");
    is_large(rt, &copy, nodes, functions);
    let copy = copy.copy(alloc).expect(rt, "memory");
    is_large(rt, &copy, nodes, functions);
    Some(())
}

#[test]
fn large_tables_are_copied(rt: HostRuntime) {
    for row in TEXTS.trim().split('\n') {
        is_copied(&rt, rt.alloc(), row).expect(&rt, "a row");
    }
}

/// The branches of the one `par` of a program are known, and there is no second one.
#[test]
fn there_is_no_second_par(rt: HostRuntime) {
    let text = "fn main() { par { print 1; } and { print 2; } print 3; }";
    let Ok(program) = accept(rt.alloc(), text.as_bytes()) else {
        panic!(&rt; "an accepted text");
    };
    let second = program.branch_sets(rt.alloc(), 0, 1);
    assert!(&rt; matches!(second, Err(SetsFail::NoSuchPar)));
}
