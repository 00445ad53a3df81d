use super::{Case, all_hold};
use crate::literals::{frame, piece, read, reads, writes, written};
use std::test::Fail;

static CASES: [Case<'static>; 5] = [
    // A reader comes before its writer.
    Case {
        input: &[],
        tasks: &[&[reads!(2, 1, 1, 0), writes!(1, 1)], &[writes!(2, 1)]],
        spans: &[
            read!(0, 2, 0, 1, 0),
            written!(0, 1, 0, 1, 0),
            written!(1, 2, 0, 1, 0),
        ],
        starts: &[0, 2, 3],
        writers: &[&[], &[1], &[2]],
        reads: &[0, 0, 1],
        writes: &[0, 1, 1],
        producers: &[(2, 0, Some(2)), (1, 0, Some(1))],
        frames: &[frame!(0, 1, 1, 1, 0, 1), frame!(1, 0, 1, 0, 1, 1)],
        sink: frame!(1, 1, 0, 1, 2, 0),
        pieces: &[piece!(0, 2, 0, 1, 1), piece!(1, 0, 0, 1, 0)],
        filled: &[],
        empty: 2,
    },
    // An activation waits for itself.
    Case {
        input: &[],
        tasks: &[&[reads!(2, 1, 1, 0), writes!(2, 1)]],
        spans: &[read!(0, 2, 0, 1, 0), written!(0, 2, 0, 1, 0)],
        starts: &[0, 2],
        writers: &[&[], &[], &[1]],
        reads: &[0, 0, 1],
        writes: &[0, 0, 1],
        producers: &[(2, 0, Some(1)), (2, 1, None)],
        frames: &[frame!(0, 1, 1, 1, 0, 1)],
        sink: frame!(1, 0, 0, 0, 1, 0),
        pieces: &[piece!(0, 0, 0, 1, 0)],
        filled: &[],
        empty: 1,
    },
    // A window spans three writers and a gap.
    Case {
        input: &[],
        tasks: &[
            &[writes!(2, 2)],
            &[writes!(2, 1)],
            &[writes!(2, 3)],
            &[reads!(2, 8, 8, 0)],
        ],
        spans: &[
            written!(0, 2, 0, 2, 0),
            written!(1, 2, 2, 1, 0),
            written!(2, 2, 3, 3, 0),
            read!(3, 2, 0, 8, 0),
        ],
        starts: &[0, 1, 2, 3, 4],
        writers: &[&[], &[], &[0, 1, 2]],
        reads: &[0, 0, 8],
        writes: &[0, 0, 6],
        producers: &[
            (2, 1, Some(0)),
            (2, 2, Some(1)),
            (2, 3, Some(2)),
            (2, 5, Some(2)),
            (2, 6, None),
            (2, 7, None),
        ],
        frames: &[
            frame!(0, 0, 2, 0, 0, 1),
            frame!(0, 0, 1, 0, 1, 1),
            frame!(0, 0, 3, 0, 2, 1),
            frame!(0, 8, 0, 8, 3, 0),
        ],
        sink: frame!(8, 0, 0, 0, 3, 0),
        pieces: &[
            piece!(0, 3, 0, 2, 0),
            piece!(1, 3, 0, 1, 2),
            piece!(2, 3, 0, 3, 3),
        ],
        filled: &[],
        empty: 8,
    },
    // A piece begins in the middle of a window: the second output window of an activation has its elements behind those of the first.
    Case {
        input: &[],
        tasks: &[&[writes!(2, 2), writes!(3, 4)], &[reads!(3, 2, 2, 1)]],
        spans: &[
            written!(0, 2, 0, 2, 0),
            written!(0, 3, 0, 4, 2),
            read!(1, 3, 1, 2, 0),
        ],
        starts: &[0, 2, 3],
        writers: &[&[], &[], &[0], &[1]],
        reads: &[0, 0, 0, 3],
        writes: &[0, 0, 2, 4],
        producers: &[(2, 1, Some(0)), (2, 2, None), (3, 3, Some(1)), (3, 4, None)],
        frames: &[frame!(0, 0, 6, 0, 0, 1), frame!(0, 2, 0, 2, 1, 0)],
        sink: frame!(2, 0, 0, 0, 1, 0),
        pieces: &[piece!(0, 1, 3, 2, 0)],
        filled: &[],
        empty: 2,
    },
    // Eight windows are on one stream.
    Case {
        input: &[],
        tasks: &[&[
            reads!(2, 1, 1, 0),
            writes!(2, 1),
            reads!(2, 2, 1, 0),
            writes!(2, 2),
            reads!(2, 1, 0, 0),
            writes!(2, 1),
            reads!(2, 1, 3, 0),
            writes!(2, 3),
        ]],
        spans: &[
            read!(0, 2, 0, 1, 0),
            written!(0, 2, 0, 1, 0),
            read!(0, 2, 1, 2, 1),
            written!(0, 2, 1, 2, 1),
            read!(0, 2, 2, 1, 3),
            written!(0, 2, 3, 1, 3),
            read!(0, 2, 2, 1, 4),
            written!(0, 2, 4, 3, 4),
        ],
        starts: &[0, 8],
        writers: &[&[], &[], &[1, 3, 5, 7]],
        reads: &[0, 0, 5],
        writes: &[0, 0, 7],
        producers: &[
            (2, 0, Some(1)),
            (2, 2, Some(3)),
            (2, 3, Some(5)),
            (2, 6, Some(7)),
            (2, 7, None),
        ],
        frames: &[frame!(0, 5, 7, 5, 0, 4)],
        sink: frame!(5, 0, 0, 0, 4, 0),
        pieces: &[
            piece!(0, 0, 0, 1, 0),
            piece!(0, 0, 1, 2, 1),
            piece!(0, 0, 2, 1, 3),
            piece!(0, 0, 2, 1, 4),
        ],
        filled: &[],
        empty: 5,
    },
];

#[test]
fn readers_take_from_several_writers(rt: HostRuntime) -> Result<(), Fail> {
    all_hold(&rt, &CASES)
}
