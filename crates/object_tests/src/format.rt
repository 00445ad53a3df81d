//! Which bytes are objects.

use crate::answers::{Answer, answer_of, answer_to, are_answered, object_of};
use std::alloc::Global;
use std::test::Fail;

/// `main` alone, which ends at once.
static SHOWN: [u8; 44] = [
    0x4f, 0x53, 0x4f, 0x31, 2, 0, 0, 0, 0, 0, 0, 0, 1, 0, 0, 0, 0, 0, 0, 0, 1, 0, 0, 0, 1, 0, 0, 0,
    0, 0, 0, 0, 0, 0, 0, 0, 1, 0, 0, 0, 0x13, 0, 0, 0,
];

/// A function; a task over two windows, which captures a slot and calls it; and `main`, which spawns the task.
static LARGER: [u32; 75] = [
    4,
    2,
    3,
    0,
    1,
    1,
    2,
    4,
    1,
    2,
    2,
    13,
    1,
    3,
    4,
    1,
    1,
    9,
    1,
    2,
    2,
    0,
    2,
    0,
    1,
    1,
    2,
    23,
    3,
    0,
    0,
    u32::MAX,
    13,
    3,
    5,
    18,
    0,
    0,
    10,
    0,
    7,
    16,
    17,
    0,
    4,
    1,
    0,
    0,
    3,
    1,
    11,
    1,
    7,
    19,
    0,
    2,
    20,
    1,
    9,
    0,
    0,
    0,
    1,
    21,
    9,
    0,
    0,
    0,
    2,
    22,
    1,
    9,
    23,
    0,
    19,
];

/// Whether each piece of an object that ends early is refused as no object.
fn cuts_are_refused(alloc: Global, object: &[u8]) -> bool {
    for length in 0..object.len() {
        if answer_of(alloc, &object[..length]) != Answer::Format {
            return false;
        }
    }
    true
}

#[test]
fn reads_what_it_writes(rt: HostRuntime) -> Result<(), Fail> {
    assert!(rt; answer_of(rt.alloc(), SHOWN.as_slice()) == Answer::Code);
    assert!(rt; answer_to(rt.alloc(), LARGER.as_slice()) == Answer::Code);
    Ok(())
}

#[test]
fn refuses_what_ends_early(rt: HostRuntime) -> Result<(), Fail> {
    assert!(rt; cuts_are_refused(rt.alloc(), SHOWN.as_slice()));
    let larger = object_of(rt.alloc(), LARGER.as_slice())?;
    assert!(rt; cuts_are_refused(rt.alloc(), larger.as_slice()));
    Ok(())
}

#[test]
fn refuses_what_follows(rt: HostRuntime) -> Result<(), Fail> {
    let mut object = object_of(rt.alloc(), LARGER.as_slice())?;
    for _ in 0..8 {
        object.push(0)?;
        assert!(rt; answer_of(rt.alloc(), object.as_slice()) == Answer::Format);
    }
    Ok(())
}

static PAST_THE_TABLES: [(&[u32], Answer); 7] = [
    // Instruction 25.
    (&[2, 0, 1, 0, 1, 1, 0, 0, 1, 25], Answer::Format),
    // The operators behind the last ones.
    (&[2, 0, 1, 0, 1, 1, 0, 0, 1, 12, 5, 1], Answer::Format),
    (&[2, 0, 1, 0, 1, 1, 0, 0, 1, 13, 27, 1], Answer::Format),
    // An item that neither reads nor writes.
    (
        &[2, 0, 1, 0, 1, 1, 0, 1, 0, 1, 0, 1, 2, 0, 0, 1, 19],
        Answer::Format,
    ),
    // A length that passes all that is there.
    (&[2, 0, u32::MAX], Answer::Format),
    (&[2, 0, 1, 0, 1, 1, 0, u32::MAX, 1, 19], Answer::Format),
    (&[2, 0, 1, 0, 1, 1, 0, 0, u32::MAX, 19], Answer::Format),
];

#[test]
fn refuses_numbers_past_the_tables(rt: HostRuntime) -> Result<(), Fail> {
    assert!(rt; are_answered(rt.alloc(), &PAST_THE_TABLES));
    Ok(())
}
