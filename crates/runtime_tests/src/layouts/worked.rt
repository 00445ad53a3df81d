use super::{Case, all_hold};
use crate::literals::{frame, piece, read, reads, value, writes, written};
use std::test::Fail;

static CASES: [Case<'static>; 4] = [
    // Two producers alternate.
    Case {
        input: &[],
        tasks: &[
            &[writes!(2, 2)],
            &[writes!(2, 1)],
            &[reads!(2, 3, 3, 0), writes!(1, 3)],
            &[writes!(2, 2)],
            &[writes!(2, 1)],
            &[reads!(2, 3, 3, 0), writes!(1, 3)],
        ],
        spans: &[
            written!(0, 2, 0, 2, 0),
            written!(1, 2, 2, 1, 0),
            read!(2, 2, 0, 3, 0),
            written!(2, 1, 0, 3, 0),
            written!(3, 2, 3, 2, 0),
            written!(4, 2, 5, 1, 0),
            read!(5, 2, 3, 3, 0),
            written!(5, 1, 3, 3, 0),
        ],
        starts: &[0, 1, 2, 4, 5, 6, 8],
        writers: &[&[], &[3, 7], &[0, 1, 4, 5]],
        reads: &[0, 0, 6],
        writes: &[0, 6, 6],
        producers: &[
            (2, 0, Some(0)),
            (2, 1, Some(0)),
            (2, 2, Some(1)),
            (2, 3, Some(4)),
            (2, 5, Some(5)),
            (2, 6, None),
            (1, 2, Some(3)),
            (1, 3, Some(7)),
            (0, 0, None),
        ],
        frames: &[
            frame!(0, 0, 2, 0, 0, 1),
            frame!(0, 0, 1, 0, 1, 1),
            frame!(0, 3, 3, 3, 2, 1),
            frame!(3, 0, 2, 0, 3, 1),
            frame!(3, 0, 1, 0, 4, 1),
            frame!(3, 3, 3, 3, 5, 1),
        ],
        sink: frame!(6, 6, 0, 6, 6, 0),
        pieces: &[
            piece!(0, 2, 0, 2, 0),
            piece!(1, 2, 0, 1, 2),
            piece!(2, 6, 0, 3, 6),
            piece!(3, 5, 0, 2, 3),
            piece!(4, 5, 0, 1, 5),
            piece!(5, 6, 0, 3, 9),
        ],
        filled: &[],
        empty: 12,
    },
    // Two activations peek, and one reads behind a tick.
    Case {
        input: &[5, 7],
        tasks: &[
            &[reads!(0, 1, 0, 0), writes!(1, 1)],
            &[reads!(0, 1, 0, 0), writes!(1, 1)],
            &[reads!(0, 1, 1, 1), writes!(1, 1)],
        ],
        spans: &[
            read!(0, 0, 0, 1, 0),
            written!(0, 1, 0, 1, 0),
            read!(1, 0, 0, 1, 0),
            written!(1, 1, 1, 1, 0),
            read!(2, 0, 1, 1, 0),
            written!(2, 1, 2, 1, 0),
        ],
        starts: &[0, 2, 4, 6],
        writers: &[&[], &[1, 3, 5]],
        reads: &[2, 0],
        writes: &[0, 3],
        producers: &[(1, 0, Some(1)), (1, 2, Some(5)), (1, 3, None), (0, 0, None)],
        frames: &[
            frame!(0, 1, 1, 0, 0, 1),
            frame!(1, 1, 1, 0, 1, 1),
            frame!(2, 1, 1, 0, 2, 1),
        ],
        sink: frame!(3, 3, 0, 3, 3, 0),
        pieces: &[
            piece!(0, 3, 0, 1, 3),
            piece!(1, 3, 0, 1, 4),
            piece!(2, 3, 0, 1, 5),
        ],
        filled: &[value!(5), value!(5), value!(7)],
        empty: 3,
    },
    // A burst above the horizon leaves elements out.
    Case {
        input: &[1, 2, 3, 4],
        tasks: &[
            &[reads!(0, 1, 3, 0), writes!(1, 1)],
            &[reads!(0, 1, 3, 0), writes!(1, 1)],
        ],
        spans: &[
            read!(0, 0, 0, 1, 0),
            written!(0, 1, 0, 1, 0),
            read!(1, 0, 3, 1, 0),
            written!(1, 1, 1, 1, 0),
        ],
        starts: &[0, 2, 4],
        writers: &[&[], &[1, 3]],
        reads: &[6, 0],
        writes: &[0, 2],
        producers: &[(1, 0, Some(1)), (1, 1, Some(3)), (1, 2, None)],
        frames: &[frame!(0, 1, 1, 0, 0, 1), frame!(1, 1, 1, 0, 1, 1)],
        sink: frame!(2, 2, 0, 2, 2, 0),
        pieces: &[piece!(0, 2, 0, 1, 2), piece!(1, 2, 0, 1, 3)],
        filled: &[value!(1), value!(4)],
        empty: 2,
    },
    // An input is shorter than a window.
    Case {
        input: &[1, 2],
        tasks: &[
            &[reads!(0, 4, 4, 0), writes!(2, 1)],
            &[reads!(2, 1, 1, 0), writes!(1, 1)],
        ],
        spans: &[
            read!(0, 0, 0, 4, 0),
            written!(0, 2, 0, 1, 0),
            read!(1, 2, 0, 1, 0),
            written!(1, 1, 0, 1, 0),
        ],
        starts: &[0, 2, 4],
        writers: &[&[], &[3], &[1]],
        reads: &[4, 0, 1],
        writes: &[0, 1, 1],
        producers: &[(2, 0, Some(1)), (2, 1, None), (1, 0, Some(3)), (1, 1, None)],
        frames: &[frame!(0, 4, 1, 2, 0, 1), frame!(4, 1, 1, 1, 1, 1)],
        sink: frame!(5, 1, 0, 1, 2, 0),
        pieces: &[piece!(0, 1, 0, 1, 4), piece!(1, 2, 0, 1, 5)],
        filled: &[value!(1), value!(2)],
        empty: 4,
    },
];

#[test]
fn worked_examples_are_laid_out(rt: HostRuntime) -> Result<(), Fail> {
    all_hold(&rt, &CASES)
}
