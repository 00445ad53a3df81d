use super::{Case, all_hold};
use crate::literals::{frame, piece, read, reads, value, writes, written};
use std::test::Fail;

static CASES: [Case<'static>; 7] = [
    // There is no activation.
    Case {
        input: &[],
        tasks: &[],
        spans: &[],
        starts: &[0],
        writers: &[&[], &[]],
        reads: &[0, 0],
        writes: &[0, 0],
        producers: &[(0, 0, None), (1, 0, None)],
        frames: &[],
        sink: frame!(0, 0, 0, 0, 0, 0),
        pieces: &[],
        filled: &[],
        empty: 0,
    },
    // Two activations have no claim.
    Case {
        input: &[],
        tasks: &[&[], &[writes!(1, 1)], &[]],
        spans: &[written!(1, 1, 0, 1, 0)],
        starts: &[0, 0, 1, 1],
        writers: &[&[], &[0]],
        reads: &[0, 0],
        writes: &[0, 1],
        producers: &[(1, 0, Some(0)), (1, 1, None)],
        frames: &[
            frame!(0, 0, 0, 0, 0, 0),
            frame!(0, 0, 1, 0, 0, 1),
            frame!(0, 0, 0, 0, 1, 0),
        ],
        sink: frame!(0, 1, 0, 1, 1, 0),
        pieces: &[piece!(1, 3, 0, 1, 0)],
        filled: &[],
        empty: 1,
    },
    // The input is empty.
    Case {
        input: &[],
        tasks: &[&[reads!(0, 2, 2, 0), writes!(1, 2)]],
        spans: &[read!(0, 0, 0, 2, 0), written!(0, 1, 0, 2, 0)],
        starts: &[0, 2],
        writers: &[&[], &[1]],
        reads: &[2, 0],
        writes: &[0, 2],
        producers: &[(0, 0, None), (1, 1, Some(1)), (1, 2, None)],
        frames: &[frame!(0, 2, 2, 2, 0, 1)],
        sink: frame!(2, 2, 0, 2, 1, 0),
        pieces: &[piece!(0, 1, 0, 2, 2)],
        filled: &[],
        empty: 4,
    },
    // Windows between frames have the largest horizon.
    Case {
        input: &[],
        tasks: &[
            &[writes!(2, 65_536)],
            &[reads!(2, 65_536, 65_536, 0), writes!(1, 65_536)],
        ],
        spans: &[
            written!(0, 2, 0, 65_536, 0),
            read!(1, 2, 0, 65_536, 0),
            written!(1, 1, 0, 65_536, 0),
        ],
        starts: &[0, 1, 3],
        writers: &[&[], &[2], &[0]],
        reads: &[0, 0, 65_536],
        writes: &[0, 65_536, 65_536],
        producers: &[(2, 65_535, Some(0)), (2, 65_536, None)],
        frames: &[
            frame!(0, 0, 65_536, 0, 0, 1),
            frame!(0, 65_536, 65_536, 65_536, 1, 1),
        ],
        sink: frame!(65_536, 65_536, 0, 65_536, 2, 0),
        pieces: &[piece!(0, 1, 0, 65_536, 0), piece!(1, 2, 0, 65_536, 65_536)],
        filled: &[],
        empty: 131_072,
    },
    // A window over the input has the largest horizon.
    Case {
        input: &[1, 2],
        tasks: &[&[reads!(0, 2, 1, 0)], &[reads!(0, 65_536, 1, 0)]],
        spans: &[read!(0, 0, 0, 2, 0), read!(1, 0, 1, 65_536, 0)],
        starts: &[0, 1, 2],
        writers: &[&[], &[]],
        reads: &[2, 0],
        writes: &[0, 0],
        producers: &[(0, 1, None), (1, 0, None)],
        frames: &[frame!(0, 2, 0, 0, 0, 0), frame!(2, 65_536, 0, 65_535, 0, 0)],
        sink: frame!(65_538, 0, 0, 0, 0, 0),
        pieces: &[],
        filled: &[value!(1), value!(2), value!(2)],
        empty: 65_535,
    },
    // Positions near their bound, by the largest skip that is lawful here.
    Case {
        input: &[9],
        tasks: &[
            &[writes!(2, 2)],
            &[
                reads!(2, 2, 1, 4_611_686_018_427_387_900),
                reads!(0, 1, 0, 0),
            ],
        ],
        spans: &[
            written!(0, 2, 0, 2, 0),
            read!(1, 2, 4_611_686_018_427_387_900, 2, 0),
            read!(1, 0, 0, 1, 2),
        ],
        starts: &[0, 1, 3],
        writers: &[&[], &[], &[0]],
        reads: &[0, 0, 4_611_686_018_427_387_901],
        writes: &[0, 0, 2],
        producers: &[
            (2, 1, Some(0)),
            (2, 4_611_686_018_427_387_900, None),
            (2, 18_446_744_073_709_551_615, None),
        ],
        frames: &[frame!(0, 0, 2, 0, 0, 0), frame!(0, 3, 0, 2, 0, 0)],
        sink: frame!(3, 0, 0, 0, 0, 0),
        pieces: &[],
        filled: &[None, None, value!(9)],
        empty: 0,
    },
    // What lies behind the input's end has no value.
    Case {
        input: &[9],
        tasks: &[&[reads!(0, 2, 1, 4_611_686_018_427_387_902)]],
        spans: &[read!(0, 0, 4_611_686_018_427_387_902, 2, 0)],
        starts: &[0, 1],
        writers: &[&[], &[]],
        reads: &[4_611_686_018_427_387_903, 0],
        writes: &[0, 0],
        producers: &[(1, 0, None)],
        frames: &[frame!(0, 2, 0, 2, 0, 0)],
        sink: frame!(2, 0, 0, 0, 0, 0),
        pieces: &[],
        filled: &[],
        empty: 2,
    },
];

#[test]
fn nothing_is_there_or_as_much_as_may_be(rt: HostRuntime) -> Result<(), Fail> {
    all_hold(&rt, &CASES)
}
