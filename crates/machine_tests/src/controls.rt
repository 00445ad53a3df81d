//! Control programs that were worked out by hand: what they make, and how they end.

use crate::main_runs::run_written;
use crate::written::code_of;
use control_run::run_control;
use flow_core_laws::{Claim, Control, ControlEnd};
use os_code::{Binary, Code, CodeUnit, Instr, SiteItem};
use os_io::Memory;
use std::alloc::Global;
use std::test::Fail;

fn trapped(code: u8, line: u32) -> ControlEnd {
    ControlEnd::Trapped { code, line }
}

fn reads(stream: u32, horizon: u32, burst: u32, skip: u64) -> Claim {
    Claim {
        stream,
        write: false,
        horizon,
        burst,
        skip,
    }
}

fn writes(stream: u32, horizon: u32) -> Claim {
    Claim {
        stream,
        write: true,
        horizon,
        burst: horizon,
        skip: 0,
    }
}

/// Whether an activation has these captured values and these two claims.
fn is_made(control: &Control, number: usize, captured: &[i32], claims: [Claim; 2]) -> bool {
    match control.activations.as_slice().get(number) {
        Some(one) => {
            one.site == 0
                && one.captured.as_slice() == captured
                && one.claims.as_slice() == claims.as_slice()
        }
        None => false,
    }
}

/// One `Spawn` of an input item on the stream of number 1 or behind it, and of an output item there with a window.
/// Captured are the slots 2 and 0.
fn spawning(alloc: Global, window: i32, operands: [i32; 4]) -> Result<Control, Memory> {
    run_written(
        alloc,
        &[
            Instr::End,
            Instr::Push(window),
            Instr::Store(1),
            Instr::Push(8),
            Instr::Store(2),
            Instr::Push(operands[0]),
            Instr::Push(operands[1]),
            Instr::Push(operands[2]),
            Instr::Push(operands[3]),
            Instr::Spawn(0),
            Instr::End,
        ],
        &[
            CodeUnit {
                start: 0,
                args: 2,
                slots: 2,
                stack: 0,
            },
            CodeUnit {
                start: 1,
                args: 1,
                slots: 3,
                stack: 4,
            },
        ],
        &[2, 0],
        &[
            SiteItem {
                write: false,
                stream: 1,
                window: None,
            },
            SiteItem {
                write: true,
                stream: 1,
                window: Some(1),
            },
        ],
        5,
        0,
    )
}

/// Ticks of 3 and of an amount, a `Spawn` of two windows on the input, and the same again with one tick.
fn ticking(alloc: Global, stream: i32, amount: i32, budget: u32) -> Result<Control, Memory> {
    run_written(
        alloc,
        &[
            Instr::End,
            Instr::Push(stream),
            Instr::Push(amount),
            Instr::Turn,
            Instr::Tick(0),
            Instr::Push(0),
            Instr::Push(4),
            Instr::Turn,
            Instr::Tick(0),
            Instr::Push(0),
            Instr::Push(1),
            Instr::Push(0),
            Instr::Push(2),
            Instr::Spawn(0),
            Instr::Push(0),
            Instr::Push(5),
            Instr::Turn,
            Instr::Tick(0),
            Instr::Push(0),
            Instr::Push(1),
            Instr::Push(0),
            Instr::Push(2),
            Instr::Spawn(0),
            Instr::End,
        ],
        &[
            CodeUnit {
                start: 0,
                args: 0,
                slots: 0,
                stack: 0,
            },
            CodeUnit {
                start: 1,
                args: 1,
                slots: 1,
                stack: 4,
            },
        ],
        &[],
        &[
            SiteItem {
                write: false,
                stream: 0,
                window: None,
            },
            SiteItem {
                write: false,
                stream: 0,
                window: None,
            },
        ],
        0,
        u64::from(budget.min(1000000000)),
    )
}

/// A loop that creates `times` activations: each reads one position of the input with its number and `more` as burst,
/// and writes a window.
pub(crate) fn loop_code(alloc: Global, times: i32, window: i32, more: i32) -> Result<Code, Memory> {
    code_of(
        alloc,
        &[
            Instr::End,
            Instr::Push(window),
            Instr::Window { slot: 2, line: 3 },
            Instr::Turn,
            Instr::Load(1),
            Instr::Push(times),
            Instr::Binary {
                op: Binary::Less,
                line: 4,
            },
            Instr::JumpZero(20),
            Instr::Push(0),
            Instr::Load(1),
            Instr::Push(more),
            Instr::Binary {
                op: Binary::Add,
                line: 5,
            },
            Instr::Push(0),
            Instr::Push(window),
            Instr::Spawn(0),
            Instr::Load(1),
            Instr::Push(1),
            Instr::Binary {
                op: Binary::Add,
                line: 6,
            },
            Instr::Store(1),
            Instr::Jump(3),
            Instr::End,
        ],
        &[
            CodeUnit {
                start: 0,
                args: 0,
                slots: 0,
                stack: 0,
            },
            CodeUnit {
                start: 1,
                args: 1,
                slots: 3,
                stack: 4,
            },
        ],
        0,
        &[],
        &[
            SiteItem {
                write: false,
                stream: 0,
                window: None,
            },
            SiteItem {
                write: true,
                stream: 2,
                window: Some(2),
            },
        ],
    )
}

fn looping(
    alloc: Global,
    times: i32,
    window: i32,
    more: i32,
    budget: u32,
) -> Result<Control, Memory> {
    let code = loop_code(alloc, times, window, more)?;
    run_control(alloc, &code, 0, u64::from(budget.min(1000000000)))
}

#[test]
fn spawns_look_at_stream_horizon_and_burst_item_by_item(rt: HostRuntime) -> Result<(), Fail> {
    let made = spawning(rt.alloc(), 2, [1, 0, 0, 2])?;
    assert!(rt; made.end == ControlEnd::Done);
    assert!(rt; made.activations.len() == 1);
    assert!(rt; is_made(&made, 0, &[8, 5], [reads(2, 1, 0, 0), writes(1, 2)]));
    for (window, operands, code) in [
        // past the streams, at the output, at the input, and after them the first trap that comes
        (2, [2, 0, 0, 2], 4),
        (2, [0, 0, 0, 2], 4),
        (2, [1, 0, -1, 2], 4),
        (0, [1, 65537, -1, 3], 7),
        (0, [1, 0, 0, 3], 6),
        (65537, [1, 65536, 1, 65537], 6),
        (2, [1, 65536, 1, 3], 8),
        (0, [1, 0, -1, 0], 4),
    ] {
        let made = spawning(rt.alloc(), window, operands)?;
        assert!(rt; made.end == trapped(code, 90));
        assert!(rt; made.activations.len() == 0);
    }
    Ok(())
}

#[test]
fn ticks_move_the_next_read_claim(rt: HostRuntime) -> Result<(), Fail> {
    let made = ticking(rt.alloc(), 0, 3, 3)?;
    assert!(rt; made.end == ControlEnd::Done);
    assert!(rt; is_made(&made, 0, &[], [reads(0, 1, 1, 7), reads(0, 1, 2, 0)]));
    assert!(rt; is_made(&made, 1, &[], [reads(0, 1, 1, 5), reads(0, 1, 2, 0)]));
    let made = ticking(rt.alloc(), 2, 65536, 2)?;
    assert!(rt; made.end == ControlEnd::OverBudget);
    assert!(rt; made.activations.len() == 1);
    assert!(rt; is_made(&made, 0, &[], [reads(0, 1, 1, 4), reads(0, 1, 2, 0)]));
    for (stream, amount, code) in [(1, -1, 4), (3, 3, 4), (-1, 3, 4), (0, -1, 7), (0, 65537, 7)] {
        let made = ticking(rt.alloc(), stream, amount, 3)?;
        assert!(rt; made.end == trapped(code, 0));
        assert!(rt; made.activations.len() == 0);
    }
    Ok(())
}

#[test]
fn limits_come_after_all_items(rt: HostRuntime) -> Result<(), Fail> {
    for (times, window, more, budget, count, end) in [
        (1, 1, 0, 0, 0, ControlEnd::OverBudget),
        (3, 0, 0, 9, 0, trapped(6, 3)),
        // 65,536 activations of 64 positions are exactly as many as there may be of both
        (65536, 63, 0, 1000000, 65536, ControlEnd::Done),
        (65537, 63, 0, 1000000, 65536, ControlEnd::Limit(1)),
        (65537, 63, 1, 1000000, 65536, trapped(7, 90)),
        (64, 65535, 0, 1000000, 64, ControlEnd::Done),
        (65, 65535, 0, 1000000, 64, ControlEnd::Limit(2)),
        (65, 65535, 65473, 1000000, 64, trapped(7, 90)),
        (65536, 64, 0, 65537, 64527, ControlEnd::Limit(2)),
    ] {
        let made = looping(rt.alloc(), times, window, more, budget)?;
        assert!(rt; made.end == end);
        assert!(rt; made.activations.len() == count);
    }
    Ok(())
}
