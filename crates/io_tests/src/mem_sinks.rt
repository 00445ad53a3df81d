//! A sink in memory: what it takes, and where it fails.

use crate::sinks::{Step, takes};
use os_io::{Failed, MemSink, Memory, WriteError, write_whole};
use std::alloc::Global;
use std::process::Abort;
use std::test::Fail;

static STEPS: [Step<'static>; 4] = [
    (b"abcd", Ok(3)),
    (b"d", Err(Failed)),
    (b"defg", Ok(2)),
    (b"f", Ok(0)),
];

#[test]
fn takes_what_fits(rt: HostRuntime) -> Result<(), Fail> {
    let mut sink = MemSink::new(rt.alloc(), 5, 3)?;
    sink.fail_at(1)?;
    takes(&rt, &mut sink, &STEPS);
    assert!(rt; sink.bytes() == b"abcde".as_slice());
    Ok(())
}

/// A sink's room, how much it takes in a call, the call that fails, and what is written of `abcdef` up to which cause.
type Writing = (u32, u32, u64, &'static [u8], &'static str);

static WRITINGS: [Writing; 6] = [
    (8, 8, 9, b"abcdef", "none"),
    (6, 1, 9, b"abcdef", "none"),
    (5, 3, 9, b"abcde", "stuck"),
    (6, 0, 9, b"", "stuck"),
    (6, 3, 0, b"", "failed"),
    (6, 3, 1, b"abc", "failed"),
];

/// Writes a piece whole, or tells the cause.
fn cause_of(sink: &mut MemSink, piece: &[u8]) -> &'static str {
    match write_whole(sink, piece) {
        Ok(()) => "none",
        Err(WriteError::Failed) => "failed",
        Err(WriteError::Stuck) => "stuck",
    }
}

/// Asks that a sink takes so much of a piece.
fn is_written(rt: &impl Abort, alloc: Global, writing: &Writing) -> Result<(), Memory> {
    let (room, most, failing, written, cause) = *writing;
    let mut sink = MemSink::new(alloc, room, most)?;
    sink.fail_at(failing)?;
    assert!(rt; cause_of(&mut sink, b"abcdef") == cause);
    assert!(rt; sink.bytes() == written);
    Ok(())
}

#[test]
fn is_written_whole_or_up_to_a_cause(rt: HostRuntime) -> Result<(), Fail> {
    for writing in &WRITINGS {
        is_written(&rt, rt.alloc(), writing)?;
    }
    Ok(())
}
