//! Which objects are of valid codes.

use crate::answers::{Answer, are_answered};
use std::test::Fail;

static ACCEPTS_CODES_THAT_NO_PROGRAM_HAS: [(&[u32], Answer); 4] = [
    // Jump 3; Turn; End; Jump 1: the second place is reached by a jump back alone.
    (
        &[2, 0, 1, 0, 1, 1, 0, 0, 4, 14, 3, 16, 19, 14, 1],
        Answer::Code,
    ),
    // End; Turn; Push 1; Jump 1: a loop whose stack grows, and which nothing reaches.
    (
        &[2, 0, 1, 0, 1, 1, 0, 0, 4, 19, 16, 0, 1, 14, 1],
        Answer::Code,
    ),
    // Push 5; Return; Turn, and behind it `main`: Call 0; Drop; End. The `Turn` is of the unit before.
    (
        &[
            2, 1, 2, 0, 0, 0, 1, 3, 1, 1, 1, 0, 6, 0, 5, 18, 16, 17, 0, 1, 19,
        ],
        Answer::Code,
    ),
    // End; Drop: what nothing reaches may go on past the end.
    (&[2, 0, 1, 0, 1, 1, 0, 0, 2, 19, 1], Answer::Code),
];

#[test]
fn accepts_codes_that_no_program_has(rt: HostRuntime) -> Result<(), Fail> {
    assert!(rt; are_answered(rt.alloc(), &ACCEPTS_CODES_THAT_NO_PROGRAM_HAS));
    Ok(())
}

static REFUSES_WHERE_NOTHING_IS: [(&[u32], Answer); 5] = [
    (&[2, 0, 0, 0, 0], Answer::Invalid),
    (&[2, 0, 1, 0, 1, 1, 0, 0, 0], Answer::Invalid),
    (&[2, 1, 1, 0, 1, 1, 0, 0, 1, 19], Answer::Invalid),
    (&[1, 0, 1, 0, 1, 1, 0, 0, 1, 19], Answer::Invalid),
    (&[2, 0, 1, 1, 1, 1, 0, 0, 2, 19, 19], Answer::Invalid),
];

#[test]
fn refuses_where_nothing_is(rt: HostRuntime) -> Result<(), Fail> {
    assert!(rt; are_answered(rt.alloc(), &REFUSES_WHERE_NOTHING_IS));
    Ok(())
}

static REFUSES_OTHER_KINDS_OF_UNIT: [(&[u32], Answer); 4] = [
    // Return in `main`.
    (&[2, 0, 1, 0, 1, 1, 0, 0, 1, 18], Answer::Invalid),
    // The site of `main`.
    (
        &[2, 0, 1, 0, 1, 1, 0, 1, 0, 1, 1, 0, 0, 1, 19],
        Answer::Invalid,
    ),
    // Two sites of one unit, and one.
    (
        &[
            2, 1, 2, 0, 0, 0, 0, 1, 1, 1, 0, 2, 0, 1, 0, 0, 0, 1, 0, 0, 2, 19, 19,
        ],
        Answer::Invalid,
    ),
    (
        &[2, 1, 2, 0, 0, 0, 0, 1, 1, 1, 0, 1, 0, 1, 0, 0, 2, 19, 19],
        Answer::Code,
    ),
];

#[test]
fn refuses_other_kinds_of_unit(rt: HostRuntime) -> Result<(), Fail> {
    assert!(rt; are_answered(rt.alloc(), &REFUSES_OTHER_KINDS_OF_UNIT));
    Ok(())
}

static REFUSES_HEIGHTS_THAT_DO_NOT_FIT: [(&[u32], Answer); 7] = [
    // Turn; Push 1; Jump 0: the stack grows.
    (
        &[2, 0, 1, 0, 1, 1, 3, 0, 3, 16, 0, 1, 14, 0],
        Answer::Invalid,
    ),
    // Drop and Copy of nothing, and a look at nothing.
    (&[2, 0, 1, 0, 1, 1, 2, 0, 2, 1, 19], Answer::Invalid),
    (&[2, 0, 1, 0, 1, 1, 2, 0, 2, 2, 19], Answer::Invalid),
    (&[2, 0, 1, 0, 1, 1, 2, 0, 2, 21, 9, 19], Answer::Invalid),
    // Push 1; End, with a stack of 0 and of 1.
    (&[2, 0, 1, 0, 1, 1, 0, 0, 2, 0, 1, 19], Answer::Invalid),
    (&[2, 0, 1, 0, 1, 1, 1, 0, 2, 0, 1, 19], Answer::Code),
    // Turn, and nothing behind it.
    (&[2, 0, 1, 0, 1, 1, 0, 0, 1, 16], Answer::Invalid),
];

#[test]
fn refuses_heights_that_do_not_fit(rt: HostRuntime) -> Result<(), Fail> {
    assert!(rt; are_answered(rt.alloc(), &REFUSES_HEIGHTS_THAT_DO_NOT_FIT));
    Ok(())
}
