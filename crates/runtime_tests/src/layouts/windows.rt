use super::{Case, all_hold};
use crate::literals::{frame, piece, read, reads, value, writes, written};
use std::test::Fail;

static CASES: [Case<'static>; 4] = [
    // Windows overlap over the input.
    Case {
        input: &[3, 6, 9, 12],
        tasks: &[
            &[reads!(0, 3, 1, 0), writes!(1, 1)],
            &[reads!(0, 3, 1, 0), writes!(1, 1)],
        ],
        spans: &[
            read!(0, 0, 0, 3, 0),
            written!(0, 1, 0, 1, 0),
            read!(1, 0, 1, 3, 0),
            written!(1, 1, 1, 1, 0),
        ],
        starts: &[0, 2, 4],
        writers: &[&[], &[1, 3]],
        reads: &[2, 0],
        writes: &[0, 2],
        producers: &[(1, 0, Some(1)), (1, 1, Some(3))],
        frames: &[frame!(0, 3, 1, 0, 0, 1), frame!(3, 3, 1, 0, 1, 1)],
        sink: frame!(6, 2, 0, 2, 2, 0),
        pieces: &[piece!(0, 2, 0, 1, 6), piece!(1, 2, 0, 1, 7)],
        filled: &[
            value!(3),
            value!(6),
            value!(9),
            value!(6),
            value!(9),
            value!(12),
        ],
        empty: 2,
    },
    // Windows overlap over what one activation writes.
    Case {
        input: &[],
        tasks: &[
            &[writes!(2, 4)],
            &[reads!(2, 3, 1, 0)],
            &[reads!(2, 3, 1, 0)],
        ],
        spans: &[
            written!(0, 2, 0, 4, 0),
            read!(1, 2, 0, 3, 0),
            read!(2, 2, 1, 3, 0),
        ],
        starts: &[0, 1, 2, 3],
        writers: &[&[], &[], &[0]],
        reads: &[0, 0, 2],
        writes: &[0, 0, 4],
        producers: &[(2, 3, Some(0)), (2, 4, None)],
        frames: &[
            frame!(0, 0, 4, 0, 0, 2),
            frame!(0, 3, 0, 3, 2, 0),
            frame!(3, 3, 0, 3, 2, 0),
        ],
        sink: frame!(6, 0, 0, 0, 2, 0),
        pieces: &[piece!(0, 1, 0, 3, 0), piece!(0, 2, 1, 3, 3)],
        filled: &[],
        empty: 6,
    },
    // A burst of 0 peeks.
    Case {
        input: &[],
        tasks: &[
            &[writes!(2, 2)],
            &[reads!(2, 2, 0, 0)],
            &[reads!(2, 2, 2, 0)],
        ],
        spans: &[
            written!(0, 2, 0, 2, 0),
            read!(1, 2, 0, 2, 0),
            read!(2, 2, 0, 2, 0),
        ],
        starts: &[0, 1, 2, 3],
        writers: &[&[], &[], &[0]],
        reads: &[0, 0, 2],
        writes: &[0, 0, 2],
        producers: &[(2, 1, Some(0)), (2, 2, None)],
        frames: &[
            frame!(0, 0, 2, 0, 0, 2),
            frame!(0, 2, 0, 2, 2, 0),
            frame!(2, 2, 0, 2, 2, 0),
        ],
        sink: frame!(4, 0, 0, 0, 2, 0),
        pieces: &[piece!(0, 1, 0, 2, 0), piece!(0, 2, 0, 2, 2)],
        filled: &[],
        empty: 4,
    },
    // Skips and bursts leave elements out: each window begins behind a skip, and the first has a burst above its horizon.
    Case {
        input: &[],
        tasks: &[
            &[writes!(2, 6)],
            &[reads!(2, 1, 2, 1)],
            &[reads!(2, 2, 2, 1)],
        ],
        spans: &[
            written!(0, 2, 0, 6, 0),
            read!(1, 2, 1, 1, 0),
            read!(2, 2, 4, 2, 0),
        ],
        starts: &[0, 1, 2, 3],
        writers: &[&[], &[], &[0]],
        reads: &[0, 0, 6],
        writes: &[0, 0, 6],
        producers: &[(2, 0, Some(0)), (2, 5, Some(0)), (2, 6, None)],
        frames: &[
            frame!(0, 0, 6, 0, 0, 2),
            frame!(0, 1, 0, 1, 2, 0),
            frame!(1, 2, 0, 2, 2, 0),
        ],
        sink: frame!(3, 0, 0, 0, 2, 0),
        pieces: &[piece!(0, 1, 1, 1, 0), piece!(0, 2, 4, 2, 1)],
        filled: &[],
        empty: 3,
    },
];

#[test]
fn windows_overlap_peek_and_leave_elements_out(rt: HostRuntime) -> Result<(), Fail> {
    all_hold(&rt, &CASES)
}
