//! A body that is run alone: a task over a window of three inputs, 10, 20 and 30, one of two outputs, and an output that
//! goes to `osout`; and a function that adds 1 and a slot of its own to its argument, keeps the sum in that slot, and leaves a 9 behind.

ghost use Rattle.std.specs.Prelude.{◌≡◌, ◌≤◌, ◌++◌, IfOk, length, true};
ghost use Rattle.flow_core_laws.specs.Limits.{budget_limit};
ghost use Rattle.os_code.specs.Checking.{is_valid};
ghost use Rattle.machine_tests.specs.Written.{alone};

use crate::task_runs::{Ran, run_twice};
use flow_core_laws::Claim;
use os_code::{Binary, CodeUnit, Instr, SiteItem};
use os_io::Memory;
use std::alloc::Global;

/// What stands behind a body: the function, and `main`.
const BEHIND: [Instr; 10] = [
    Instr::Push(9),
    Instr::Load(0),
    Instr::Load(1),
    ADD,
    Instr::Push(1),
    ADD,
    Instr::Copy,
    Instr::Store(1),
    Instr::Return,
    Instr::End,
];

const ADD: Instr = Instr::Binary {
    op: Binary::Add,
    line: 33,
};

/// The windows: three inputs, two outputs, and one output that goes to `osout`.
const ITEMS: [SiteItem; 3] = [
    SiteItem {
        write: false,
        stream: 0,
        window: Some(1),
    },
    SiteItem {
        write: true,
        stream: 2,
        window: Some(2),
    },
    SiteItem {
        write: true,
        stream: 1,
        window: None,
    },
];

const CLAIMS: [Claim; 3] = [
    Claim {
        stream: 0,
        write: false,
        horizon: 3,
        burst: 3,
        skip: 0,
    },
    Claim {
        stream: 2,
        write: true,
        horizon: 2,
        burst: 2,
        skip: 0,
    },
    Claim {
        stream: 1,
        write: true,
        horizon: 1,
        burst: 1,
        skip: 0,
    },
];

/// Runs a body twice with one scratch: with two captured values and a budget, and then with others.
pub(crate) fn run_alone(
    alloc: Global,
    body: &[Instr],
    first: ([i32; 2], u64),
    second: ([i32; 2], u64),
) -> Result<(Ran, Ran, [i32; 3]), Memory>
    requires short { length body.now ≤ 1000 }
    requires valid { is_valid (alone body.now) ≡ true }
    requires budget { first.1 ≤ budget_limit }
    requires other_budget { second.1 ≤ budget_limit }
{
    let instrs = with_behind(alloc, body)?;
    let behind = body.len() as u32;
    let units = [
        CodeUnit {
            start: behind,
            args: 1,
            slots: 2,
            stack: 3,
        },
        CodeUnit {
            start: 0,
            args: 2,
            slots: 6,
            stack: behind.min(3),
        },
        CodeUnit {
            start: behind + 9,
            args: 1,
            slots: 9,
            stack: 0,
        },
    ];
    let mut outputs = [0; 3];
    let (before, ran) = run_twice(
        alloc,
        instrs.as_slice(),
        &units,
        1,
        &[0, 1],
        &ITEMS,
        &CLAIMS,
        &[10, 20, 30],
        (&first.0, first.1),
        (&second.0, second.1),
        &mut outputs,
    )?;
    Ok((before, ran, outputs))
}

/// The instructions of a body and what stands behind it.
fn with_behind(alloc: Global, body: &[Instr]) -> Result<Vec<Instr>, Memory>
    ensures { IfOk result (λ instrs. instrs.items ≡ body.now ++ BEHIND) }
{
    let mut instrs = Vec::new(alloc);
    instrs.extend_from_slice(body)?;
    instrs.extend_from_slice(&BEHIND)?;
    Ok(instrs)
}
