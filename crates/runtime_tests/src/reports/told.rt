//! The lines of a report, and the bytes before the first gap of an output, or the first poison.

use super::{Case, Told, all_tell};
use crate::literals::{poison, reads, value, writes};
use flow_core::{ControlEnd, TaskEnd};
use std::test::Fail;

const DONE: Option<TaskEnd> = Some(TaskEnd::Done);

const OVER: Option<TaskEnd> = Some(TaskEnd::OverBudget);

/// A trap on a line.
macro_rules! trapped {
    ($code:expr, $line:expr) => {
        Some(TaskEnd::Trapped {
            code: $code,
            line: $line,
        })
    };
}

/// An end by the root of poison.
macro_rules! poisoned {
    ($root:expr) => {
        Some(TaskEnd::Poisoned { root: $root })
    };
}

static STARVED: [Told; 3] = [
    // Cycles: each waits for another one, and the last for itself.
    (
        Case {
            streams: 4,
            input_len: 0,
            tasks: &[
                &[reads!(2, 1, 1, 0), writes!(3, 1)],
                &[reads!(3, 1, 1, 0), writes!(2, 1)],
                &[reads!(2, 1, 1, 0), writes!(2, 1)],
            ],
            ends: &[None, None, None],
            output: &[],
            control: ControlEnd::Done,
        },
        b"",
        "starved 0 stream 2 position 0 producer 1 starved\nstarved 1 stream 3 position 0 producer 0 starved\n\
            starved 2 stream 2 position 1 producer 2 starved\ncontrol done\noutput 0 of 0\n",
    ),
    // An input that is too short.
    (
        Case {
            streams: 3,
            input_len: 2,
            tasks: &[
                &[reads!(0, 4, 4, 0), writes!(2, 1)],
                &[reads!(2, 1, 1, 0), writes!(1, 1)],
            ],
            ends: &[None, None],
            output: &[None],
            control: ControlEnd::Done,
        },
        b"",
        "starved 0 stream 0 position 2 producer none\nstarved 1 stream 2 position 0 producer 0 starved\ncontrol done\noutput 0 of 1\n",
    ),
    // Activations that read from one that trapped, and from one that ran over budget.
    (
        Case {
            streams: 3,
            input_len: 0,
            tasks: &[
                &[writes!(2, 1)],
                &[writes!(2, 1)],
                &[reads!(2, 1, 1, 0)],
                &[reads!(2, 1, 1, 0)],
            ],
            ends: &[trapped!(8, 4_294_967_295), OVER, poisoned!(0), poisoned!(1)],
            output: &[],
            control: ControlEnd::Trapped { code: 6, line: 3 },
        },
        b"",
        "trapped 0 code 8 line 4294967295\nover-budget 1\npoisoned 2 by 0\npoisoned 3 by 1\ncontrol trapped code 6 line 3\noutput 0 of 0\n",
    ),
];

#[test]
fn starved_activations_are_told(rt: HostRuntime) -> Result<(), Fail> {
    all_tell(&rt, &STARVED)
}

static GAPS: [Told; 4] = [
    // A trap in the middle: the value behind the poison isn't written.
    (
        Case {
            streams: 2,
            input_len: 3,
            tasks: &[
                &[reads!(0, 1, 1, 0), writes!(1, 1)],
                &[reads!(0, 1, 1, 0), writes!(1, 1)],
                &[reads!(0, 1, 1, 0), writes!(1, 1)],
            ],
            ends: &[DONE, trapped!(2, 6), DONE],
            output: &[value!(50), poison!(1), value!(20)],
            control: ControlEnd::Done,
        },
        b"\x32",
        "trapped 1 code 2 line 6\ncontrol done\noutput 1 of 3\n",
    ),
    // Two traps.
    (
        Case {
            streams: 2,
            input_len: 0,
            tasks: &[&[writes!(1, 1)], &[writes!(1, 1)], &[writes!(1, 1)]],
            ends: &[DONE, trapped!(1, 6), trapped!(1, 8)],
            output: &[value!(0), poison!(1), poison!(2)],
            control: ControlEnd::Done,
        },
        b"\0",
        "trapped 1 code 1 line 6\ntrapped 2 code 1 line 8\ncontrol done\noutput 1 of 3\n",
    ),
    // Over budget.
    (
        Case {
            streams: 2,
            input_len: 0,
            tasks: &[&[writes!(1, 1)]],
            ends: &[OVER],
            output: &[poison!(0)],
            control: ControlEnd::Done,
        },
        b"",
        "over-budget 0\ncontrol done\noutput 0 of 1\n",
    ),
    // Within the budget.
    (
        Case {
            streams: 2,
            input_len: 0,
            tasks: &[&[writes!(1, 1)]],
            ends: &[DONE],
            output: &[value!(4)],
            control: ControlEnd::Done,
        },
        b"\x04",
        "control done\noutput 1 of 1\n",
    ),
];

#[test]
fn the_output_ends_at_the_first_gap(rt: HostRuntime) -> Result<(), Fail> {
    all_tell(&rt, &GAPS)
}

static CONTROLS: [Told; 3] = [
    // A control program over budget.
    (
        Case {
            streams: 2,
            input_len: 0,
            tasks: &[&[writes!(1, 1)], &[writes!(1, 1)], &[writes!(1, 1)]],
            ends: &[DONE, DONE, DONE],
            output: &[value!(0), value!(1), value!(2)],
            control: ControlEnd::OverBudget,
        },
        b"\x00\x01\x02",
        "control over-budget\noutput 3 of 3\n",
    ),
    // A limit, and nothing else.
    (
        Case {
            streams: 2,
            input_len: 0,
            tasks: &[],
            ends: &[],
            output: &[],
            control: ControlEnd::Limit(2),
        },
        b"",
        "control limit 2\noutput 0 of 0\n",
    ),
    // The largest numbers.
    (
        Case {
            streams: 65_538,
            input_len: 0,
            tasks: &[&[reads!(65_537, 1, 1, 4_611_686_018_427_387_902)]],
            ends: &[None],
            output: &[],
            control: ControlEnd::Trapped {
                code: 255,
                line: 4_294_967_295,
            },
        },
        b"",
        "starved 0 stream 65537 position 4611686018427387902 producer none\ncontrol trapped code 255 line 4294967295\noutput 0 of 0\n",
    ),
];

#[test]
fn the_control_program_is_told(rt: HostRuntime) -> Result<(), Fail> {
    all_tell(&rt, &CONTROLS)
}
