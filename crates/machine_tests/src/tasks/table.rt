//! Bodies with each instruction, worked out by hand.

use flow_core_laws::TaskEnd;
use flow_core_laws::TaskEnd::{Done, OverBudget, Trapped};
use os_code::Instr::{
    Call, CheckAt, Copy, Drop, End, ItemCheck, ItemLoad, ItemStore, Jump, JumpZero, Load, LoadAt,
    Push, Store, StoreAt, Turn, Zero,
};
use os_code::{Binary, Instr};

/// The captured values, the budget, the end, how many steps it took, and the outputs.
pub(crate) type TableRun = ([i32; 2], u64, TaskEnd, u64, [i32; 3]);
/// A body, and what it comes to.
pub(crate) type Case<'a> = (&'a [Instr], &'a [TableRun]);

/// Stores into the window of two outputs.
pub(crate) const SET: Instr = ItemStore { item: 1, line: 5 };

const ADD: Instr = Instr::Binary {
    op: Binary::Add,
    line: 4,
};

const NONE: [i32; 3] = [0, 0, 0];

const LESS: Instr = Instr::Binary {
    op: Binary::Less,
    line: 4,
};

pub(crate) const CASES: [Case<'static>; 29] = [
    (&[End], &[([0, 0], 0, Done, 1, NONE)]),
    (
        &[Push(0), Push(7), SET, End],
        &[([0, 0], 0, Done, 4, [7, 0, 0])],
    ),
    (
        &[Push(0), Push(7), Push(8), Drop, SET, End],
        &[([0, 0], 0, Done, 6, [7, 0, 0])],
    ),
    (
        &[Push(0), Push(7), Copy, ADD, SET, End],
        &[([0, 0], 0, Done, 6, [14, 0, 0])],
    ),
    // the captured values are slots 0 and 1, and all other slots are 0
    (
        &[Push(0), Load(1), SET, Push(1), Load(3), SET, End],
        &[([5, 6], 0, Done, 7, [6, 0, 0])],
    ),
    (
        &[
            Push(7),
            Store(1),
            Push(0),
            Load(1),
            SET,
            Push(1),
            Load(0),
            SET,
            End,
        ],
        &[([5, 6], 0, Done, 9, [7, 5, 0])],
    ),
    (
        &[
            Zero { first: 0, count: 1 },
            Push(0),
            Load(0),
            SET,
            Push(1),
            Load(1),
            SET,
            End,
        ],
        &[([5, 6], 0, Done, 8, [0, 6, 0])],
    ),
    (
        &[
            Zero { first: 1, count: 5 },
            Push(0),
            Load(0),
            SET,
            Push(1),
            Load(1),
            SET,
            End,
        ],
        &[([5, 6], 0, Done, 8, [5, 0, 0])],
    ),
    (
        &[Push(0), Load(0), CheckAt { size: 3, line: 7 }, SET, End],
        &[
            ([0, 0], 0, Done, 5, NONE),
            ([2, 0], 0, Done, 5, [2, 0, 0]),
            ([3, 0], 0, Trapped { code: 4, line: 7 }, 3, NONE),
            ([-1, 0], 0, Trapped { code: 4, line: 7 }, 3, NONE),
        ],
    ),
    (
        &[Push(0), Load(0), CheckAt { size: 0, line: 7 }, SET, End],
        &[([0, 0], 0, Trapped { code: 4, line: 7 }, 3, NONE)],
    ),
    (
        &[
            Push(7),
            Store(3),
            Push(0),
            Load(0),
            LoadAt {
                first: 2,
                size: 2,
                line: 7,
            },
            SET,
            End,
        ],
        &[
            ([0, 0], 0, Done, 7, NONE),
            ([1, 0], 0, Done, 7, [7, 0, 0]),
            ([2, 0], 0, Trapped { code: 4, line: 7 }, 5, NONE),
            ([-1, 0], 0, Trapped { code: 4, line: 7 }, 5, NONE),
        ],
    ),
    (
        &[
            Load(0),
            Push(7),
            StoreAt {
                first: 2,
                size: 2,
                line: 6,
            },
            Push(0),
            Load(2),
            SET,
            Push(1),
            Load(3),
            SET,
            End,
        ],
        &[
            ([0, 0], 0, Done, 10, [7, 0, 0]),
            ([1, 0], 0, Done, 10, [0, 7, 0]),
            ([2, 0], 0, Trapped { code: 4, line: 6 }, 3, NONE),
            ([-1, 0], 0, Trapped { code: 4, line: 6 }, 3, NONE),
        ],
    ),
    // windows of three inputs and of two outputs
    (
        &[Push(0), Load(0), ItemCheck { item: 0, line: 8 }, SET, End],
        &[
            ([2, 0], 0, Done, 5, [2, 0, 0]),
            ([3, 0], 0, Trapped { code: 4, line: 8 }, 3, NONE),
            ([-1, 0], 0, Trapped { code: 4, line: 8 }, 3, NONE),
        ],
    ),
    (
        &[Push(0), Load(0), ItemCheck { item: 1, line: 8 }, SET, End],
        &[
            ([1, 0], 0, Done, 5, [1, 0, 0]),
            ([2, 0], 0, Trapped { code: 4, line: 8 }, 3, NONE),
        ],
    ),
    (
        &[Push(0), Load(0), ItemLoad { item: 0, line: 9 }, SET, End],
        &[
            ([0, 0], 0, Done, 5, [10, 0, 0]),
            ([2, 0], 0, Done, 5, [30, 0, 0]),
            ([3, 0], 0, Trapped { code: 4, line: 9 }, 3, NONE),
            ([-1, 0], 0, Trapped { code: 4, line: 9 }, 3, NONE),
        ],
    ),
    (
        &[
            Push(1),
            Push(7),
            SET,
            Push(0),
            Load(0),
            ItemLoad { item: 1, line: 9 },
            SET,
            End,
        ],
        &[
            ([0, 0], 0, Done, 8, [0, 7, 0]),
            ([1, 0], 0, Done, 8, [7, 7, 0]),
            ([2, 0], 0, Trapped { code: 4, line: 9 }, 6, NONE),
        ],
    ),
    (
        &[Load(0), Push(7), SET, End],
        &[
            ([0, 0], 0, Done, 4, [7, 0, 0]),
            ([1, 0], 0, Done, 4, [0, 7, 0]),
            ([2, 0], 0, Trapped { code: 4, line: 5 }, 3, NONE),
            ([-1, 0], 0, Trapped { code: 4, line: 5 }, 3, NONE),
        ],
    ),
    (
        &[Load(0), Push(7), ItemStore { item: 2, line: 6 }, End],
        &[
            ([0, 0], 0, Done, 4, [0, 0, 7]),
            ([1, 0], 0, Trapped { code: 4, line: 6 }, 3, NONE),
        ],
    ),
    // jumps
    (
        &[Jump(2), End, Push(0), Push(7), SET, End],
        &[([0, 0], 0, Done, 5, [7, 0, 0])],
    ),
    (
        &[
            Push(0),
            Load(0),
            JumpZero(5),
            Push(7),
            Jump(6),
            Push(8),
            SET,
            End,
        ],
        &[
            ([0, 0], 0, Done, 6, [8, 0, 0]),
            ([3, 0], 0, Done, 7, [7, 0, 0]),
            ([-1, 0], 0, Done, 7, [7, 0, 0]),
        ],
    ),
    (
        &[Turn, Push(0), Push(7), SET, End],
        &[
            ([0, 0], 1, Done, 5, [7, 0, 0]),
            ([0, 0], 0, OverBudget, 1, NONE),
        ],
    ),
    (&[Turn, Jump(0)], &[([0, 0], 7, OverBudget, 15, NONE)]),
    // counts to 5, and keeps the last number before it
    (
        &[
            Turn,
            Load(0),
            Push(5),
            LESS,
            JumpZero(13),
            Push(0),
            Load(0),
            SET,
            Load(0),
            Push(1),
            ADD,
            Store(0),
            Jump(0),
            End,
        ],
        &[
            ([0, 0], 6, Done, 71, [4, 0, 0]),
            ([0, 0], 5, OverBudget, 66, NONE),
            ([0, 0], 0, OverBudget, 1, NONE),
        ],
    ),
    // Calls: the slots and what is below the arguments are the caller's own, and those of the function are 0 each time.
    (
        &[Push(0), Load(0), Turn, Call(0), SET, End],
        &[
            ([5, 0], 1, Done, 15, [6, 0, 0]),
            ([5, 0], 0, OverBudget, 3, NONE),
            ([2147483647, 0], 1, Trapped { code: 1, line: 33 }, 10, NONE),
        ],
    ),
    (
        &[Push(0), Load(0), Turn, Call(0), Turn, Call(0), SET, End],
        &[
            ([5, 0], 2, Done, 26, [7, 0, 0]),
            ([5, 0], 1, OverBudget, 14, NONE),
        ],
    ),
    (
        &[Load(0), Turn, Call(0), Drop, End],
        &[([5, 0], 1, Done, 14, NONE)],
    ),
    (
        &[
            Load(0),
            Turn,
            Call(0),
            Store(1),
            Push(0),
            Load(0),
            SET,
            Push(1),
            Load(1),
            SET,
            End,
        ],
        &[([5, 0], 1, Done, 20, [5, 6, 0])],
    ),
    // what goes to `osout` is a byte, and what goes elsewhere any number
    (
        &[Push(0), Load(0), ItemStore { item: 2, line: 6 }, End],
        &[
            ([255, 0], 0, Done, 4, [0, 0, 255]),
            ([256, 0], 0, Trapped { code: 5, line: 90 }, 4, NONE),
            ([-1, 0], 0, Trapped { code: 5, line: 90 }, 4, NONE),
        ],
    ),
    (
        &[Push(0), Load(0), SET, End],
        &[([256, 0], 0, Done, 4, [256, 0, 0])],
    ),
];
