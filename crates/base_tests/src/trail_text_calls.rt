//! Texts of trails, in which `/` is written for LF.

use std::alloc::{AllocError, Global};
use std::process::Abort;
use std::test::Fail;
use trail_meaning::{TrailEvent, TrailKind};
use trail_text::{TrailFail, read_trail, trail_text};

/// The bytes of a row, with LF for `/`.
fn bytes_of(alloc: Global, row: &str) -> Result<Vec<u8>, AllocError> {
    let mut text = Vec::new(alloc);
    for byte in row.as_bytes() {
        text.push(if *byte == b'/' { b'\n' } else { *byte })?;
    }
    Ok(text)
}

// A trail is held for as long as it is checked, and goes to another thread if need be.
fn sends<T: Send>(_value: &T) {}

#[test]
fn a_trail_has_what_its_text_says(rt: HostRuntime) -> Result<(), Fail> {
    let row =
        "trail k 32 p 3 arena 48 steps 9 deques 5/source 2/x//2 steal 4/end periods 6 ahead 7 high 8/";
    let text = bytes_of(rt.alloc(), row)?;
    let Ok(trail) = read_trail(rt.alloc(), text.as_slice()) else {
        panic!(rt; "refused");
    };
    sends(&trail);
    assert!(rt; [trail.k, trail.p, trail.arena, trail.steps, trail.deques] == [32, 3, 48, 9, 5]);
    assert!(rt; trail.source.as_slice() == b"x\n".as_slice());
    let event = TrailEvent {
        worker: 2,
        kind: TrailKind::Steal(4),
    };
    assert!(rt; trail.events.as_slice() == [event].as_slice());
    let numbers = &trail.numbers;
    assert!(rt; [numbers.periods, numbers.ahead, numbers.high] == [6, 7, 8]);
    let written = trail_text(rt.alloc(), &trail)?;
    assert!(rt; written.as_slice() == text.as_slice());
    Ok(())
}

/// A trail's text with a source of `count` bytes and so many actions.
fn long_text(alloc: Global, count: u32, actions: u32) -> Result<Vec<u8>, AllocError> {
    let mut text = bytes_of(alloc, "trail k 16 p 1 arena 16 steps 1 deques 1/source ")?;
    let mut size = String::new(alloc);
    writeln!(size, "{count}")?;
    text.extend_from_slice(size.as_bytes())?;
    for _ in 0..count {
        text.push(b'x')?;
    }
    text.push(b'\n')?;
    for _ in 0..actions {
        text.extend_from_slice(b"0 act\n")?;
    }
    text.extend_from_slice(b"end periods 0 ahead 0 high 0\n")?;
    Ok(text)
}

/// A text of so many actions after a source of so many bytes is read, or it is refused at this place.
fn is_long(rt: &impl Abort, alloc: Global, count: u32, at: Option<u32>) -> Result<(), Fail> {
    let text = long_text(alloc, count, 5_592_390)?;
    let told = match read_trail(alloc, text.as_slice()) {
        Err(TrailFail::NotTrail { at }) => Some(at),
        Err(TrailFail::OutOfMemory) => panic!(rt; "no memory"),
        Ok(_trail) => None,
    };
    assert!(rt; told == at);
    Ok(())
}

#[test]
fn a_text_has_at_most_33554432_bytes(rt: HostRuntime) -> Result<(), Fail> {
    is_long(&rt, rt.alloc(), 11, None)?;
    is_long(&rt, rt.alloc(), 12, Some(33_554_432))
}
