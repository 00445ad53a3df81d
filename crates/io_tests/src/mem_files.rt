//! Files in memory: which calls fail, and what the others give.

ghost use Rattle.std.specs.Prelude.{◌≤◌};
ghost use Rattle.os_io.specs.Limits.{read_limit};

use crate::files::{Call, Step, gives};
use os_io::{Failed, Loaded, MemFiles, READ_LIMIT, ReadError, read_whole};
use std::alloc::{AllocError, Global};
use std::process::Abort;
use std::test::Fail;

static STEPS: [Step<'static>; 9] = [
    // no file is open, and there is no such file
    (Call::Read, Ok(0), b"\0\0\0"),
    (Call::Open("c"), Err(Failed), b"\0\0\0"),
    (Call::Open("a"), Ok(0), b"\0\0\0"),
    (Call::Read, Ok(3), b"alp"),
    // `a` stays open
    (Call::Open("c"), Err(Failed), b"alp"),
    (Call::Read, Ok(2), b"hap"),
    // the end of `a`
    (Call::Read, Ok(0), b"hap"),
    // `b` is empty
    (Call::Open("b"), Ok(0), b"hap"),
    (Call::Read, Ok(0), b"hap"),
];

#[test]
fn gives_the_bytes_of_the_file_that_was_opened_last(rt: HostRuntime) -> Result<(), Fail> {
    let mut files = MemFiles::new(rt.alloc());
    files.add("a", b"alpha")?;
    files.add("b", b"")?;
    gives(&rt, &mut files, &mut [0u8; 3], &STEPS);
    Ok(())
}

/// The length of a file that is read whole, or `None` where it is too long. Call 0 is the `open`.
fn length_read(
    alloc: Global,
    text: &[u8],
    limit: u64,
    failing: u64,
) -> Result<Option<usize>, ReadError>
    requires { limit ≤ read_limit }
{
    let mut files = MemFiles::new(alloc);
    files.add("text", text)?;
    files.fail_at(failing)?;
    match read_whole(alloc, &mut files, "text", limit)? {
        Loaded::Whole(bytes) => Ok(Some(bytes.len())),
        Loaded::TooLong => Ok(None),
    }
}

/// A limit of at most 67,108,864, the call that fails, and the length that is read.
type Reading = (u64, u64, Option<usize>);

// The first piece has 8,192 bytes, so 20,000 are read by the calls 1 to 3, and 4 is their end.
static READINGS: [Reading; 5] = [
    (20_000, 9, Some(20_000)),
    (67_108_864, 9, Some(20_000)),
    (19_999, 9, None),
    (0, 9, None),
    (20_000, 5, Some(20_000)),
];

/// Asks that a text is read as each of these readings says.
fn has_lengths(
    rt: &impl Abort,
    alloc: Global,
    text: &[u8],
    readings: &[Reading],
) -> Result<(), Fail> {
    for (limit, failing, length) in readings {
        let found = length_read(alloc, text, (*limit).min(READ_LIMIT), *failing)?;
        assert!(rt; found == *length);
    }
    Ok(())
}

/// Asks that a text isn't read where one of its five calls fails.
fn has_failures(rt: &impl Abort, alloc: Global, text: &[u8]) {
    for failing in 0..5 {
        let outcome = length_read(alloc, text, 20_000, failing);
        assert!(rt; matches!(outcome, Err(ReadError::Failed)));
    }
}

#[test]
fn is_read_whole_or_not_at_all(rt: HostRuntime) -> Result<(), Fail> {
    let text = twenty_thousand(rt.alloc())?;
    has_lengths(&rt, rt.alloc(), &text, &READINGS)?;
    has_failures(&rt, rt.alloc(), &text);
    Ok(())
}

fn twenty_thousand(alloc: Global) -> Result<Vec<u8>, AllocError> {
    vec![in alloc; 7u8; 20_000]
}

#[test]
fn gives_at_most_so_many_bytes(rt: HostRuntime) -> Result<(), Fail> {
    let mut files = MemFiles::new(rt.alloc());
    files.add("a", b"alpha")?;
    files.most(2);
    gives(&rt, &mut files, &mut [0u8; 3], &NARROW);
    Ok(())
}

static NARROW: [Step<'static>; 5] = [
    (Call::Open("a"), Ok(0), b"\0\0\0"),
    (Call::Read, Ok(2), b"al\0"),
    (Call::Read, Ok(2), b"ph\0"),
    (Call::Read, Ok(1), b"ah\0"),
    (Call::Read, Ok(0), b"ah\0"),
];
