//! The bytes that kernels are run over are those of the recurrence.

use kernels::generate;
use std::alloc::Global;
use std::process::Abort;
use std::test::Fail;

/// Seeds, and the first bytes that the recurrence gives for them, at most eight, worked out by hand.
static BYTES: [(u32, &[u8]); 3] = [
    (0, &[0x00, 0xdc, 0x04, 0x65]),
    (1, &[0xc6, 0x7e, 0x81, 0x6b, 0x4b, 0xfb, 0xe2, 0xfb]),
    (7, &[]),
];

/// The bytes that are made of each seed begin so.
fn are_made(rt: &impl Abort, alloc: Global, rows: &[(u32, &[u8])]) -> Result<(), Fail> {
    for (seed, bytes) in rows {
        let made = generate(alloc, *seed, bytes.len().min(8) as u32)?;
        assert!(rt; made.as_slice() == *bytes, "seed {seed}");
    }
    Ok(())
}

#[test]
fn bytes_come_from_the_recurrence(rt: HostRuntime) -> Result<(), Fail> {
    are_made(&rt, rt.alloc(), &BYTES)
}
