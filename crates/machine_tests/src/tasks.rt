//! Tasks that were worked out by hand: the ends, the steps and what is written.

ghost use Rattle.std.specs.Prelude.{◌≡◌, true};
ghost use Rattle.std.specs.List.{list_all};
ghost use Rattle.os_code.specs.Checking.{is_valid};
ghost use Rattle.machine_tests.specs.Written.{alone};

mod alone;
mod drawn;
mod forms;
mod table;

use crate::task_runs::{Ran, run_twice};
use alone::run_alone;
use drawn::DRAWN;
use flow_core_laws::{BUDGET_LIMIT, Claim, TaskEnd};
use forms::{FORMS, FORMS_OF_WINDOWS_AND_OPERATORS};
use os_code::{Binary, CodeUnit, Instr, SiteItem, Unary};
use os_io::Memory;
use std::alloc::Global;
use std::process::Abort;
use std::test::Fail;
use table::{CASES, Case, SET, TableRun};

/// The run of a task that is done, after `steps` steps, and that took no turn.
fn done(steps: u64) -> Ran {
    Ran {
        end: TaskEnd::Done,
        steps,
        turns: 0,
    }
}

fn trapped(code: u8, line: u32, steps: u64) -> Ran {
    Ran {
        end: TaskEnd::Trapped { code, line },
        steps,
        turns: 0,
    }
}

fn over(steps: u64) -> Ran {
    Ran {
        end: TaskEnd::OverBudget,
        steps,
        turns: 0,
    }
}

/// A run that took `turns` turns.
fn taking(turns: u64, ran: Ran) -> Ran {
    Ran { turns, ..ran }
}

/// Whether a body comes to what each of its runs says, where the last of them was made before with the same scratch.
fn comes_to(rt: &(impl AllocGlobal + Abort), body: &[Instr], runs: &[TableRun]) -> Result<(), Fail>
    requires { is_valid (alone body.now) ≡ true }
{
    assert!(rt; body.len() <= 1000);
    let Some(last) = runs.last() else {
        return Err(Fail::from("a body without runs"));
    };
    let (last_values, last_budget, last_end, last_steps, _) = *last;
    for run in runs {
        let (values, budget, end, steps, outputs) = *run;
        let (before, ran, written) = run_alone(
            rt.alloc(),
            body,
            (last_values, last_budget.min(1000)),
            (values, budget.min(1000)),
        )?;
        assert!(rt; (before.end, before.steps) == (last_end, last_steps));
        assert!(rt; (ran.end, ran.steps) == (end, steps));
        assert!(rt; end != TaskEnd::Done || written == outputs);
        assert!(rt; end != TaskEnd::OverBudget || ran.turns == budget.min(1000));
    }
    Ok(())
}

/// Whether each body comes to what its runs say.
fn all_come_to(rt: &(impl AllocGlobal + Abort), cases: &[Case<'_>]) -> Result<(), Fail>
    requires { list_all (λ case. is_valid (alone case.0.now)) cases.now ≡ true }
{
    for case in cases {
        comes_to(rt, case.0, case.1)?;
    }
    Ok(())
}

/// How an operator on two captured values ends, and what it gives.
fn binary(alloc: Global, op: Binary, values: [i32; 2]) -> Result<(Ran, i32), Memory> {
    let body = [
        Instr::Push(0),
        Instr::Load(0),
        Instr::Load(1),
        Instr::Binary { op, line: 4 },
        SET,
        Instr::End,
    ];
    let (_, ran, outputs) = run_alone(alloc, &body, ([1, 0], 0), (values, 0))?;
    Ok((ran, outputs[0]))
}

/// How an operator on a captured value ends, and what it gives.
fn unary(alloc: Global, op: Unary, value: i32) -> Result<(Ran, i32), Memory> {
    let body = [
        Instr::Push(0),
        Instr::Load(0),
        Instr::Unary { op, line: 4 },
        SET,
        Instr::End,
    ];
    let (_, ran, outputs) = run_alone(alloc, &body, ([1, 0], 0), ([value, 0], 0))?;
    Ok((ran, outputs[0]))
}

/// Divides 1 by a captured value, three calls deep.
fn deep(
    alloc: Global,
    first: (i32, u64),
    second: (i32, u64),
) -> Result<(Ran, Ran, [i32; 1]), Memory> {
    let instrs = [
        Instr::Push(1),
        Instr::Load(0),
        Instr::Binary {
            op: Binary::Divide,
            line: 33,
        },
        Instr::Return,
        Instr::Load(0),
        Instr::Turn,
        Instr::Call(0),
        Instr::Return,
        Instr::Load(0),
        Instr::Turn,
        Instr::Call(1),
        Instr::Return,
        Instr::Push(0),
        Instr::Load(0),
        Instr::Turn,
        Instr::Call(2),
        Instr::ItemStore { item: 0, line: 0 },
        Instr::End,
        Instr::End,
    ];
    let units = [
        CodeUnit {
            start: 0,
            args: 1,
            slots: 1,
            stack: 2,
        },
        CodeUnit {
            start: 4,
            args: 1,
            slots: 1,
            stack: 1,
        },
        CodeUnit {
            start: 8,
            args: 1,
            slots: 1,
            stack: 1,
        },
        CodeUnit {
            start: 12,
            args: 1,
            slots: 1,
            stack: 2,
        },
        CodeUnit {
            start: 18,
            args: 1,
            slots: 9,
            stack: 0,
        },
    ];
    let items = [SiteItem {
        write: true,
        stream: 2,
        window: None,
    }];
    let claims = [Claim {
        stream: 2,
        write: true,
        horizon: 1,
        burst: 1,
        skip: 0,
    }];
    let mut outputs = [0; 1];
    let (one, other) = run_twice(
        alloc,
        &instrs,
        &units,
        3,
        &[0],
        &items,
        &claims,
        &[],
        (&[first.0], first.1.min(BUDGET_LIMIT)),
        (&[second.0], second.1.min(BUDGET_LIMIT)),
        &mut outputs,
    )?;
    Ok((one, other, outputs))
}

/// Writes into the fourth and into the eighth of eight windows, whose sizes are 1 to 8.
fn eight(alloc: Global, first: i32, second: i32) -> Result<(Ran, Ran, [i32; 36]), Memory> {
    let instrs = [
        Instr::Load(0),
        Instr::Push(9),
        Instr::ItemStore { item: 3, line: 4 },
        Instr::Push(7),
        Instr::Push(8),
        Instr::ItemStore { item: 7, line: 4 },
        Instr::Jump(8),
        Instr::Drop,
        Instr::End,
        Instr::End,
    ];
    let units = [
        CodeUnit {
            start: 0,
            args: 1,
            slots: 1,
            stack: 2,
        },
        CodeUnit {
            start: 9,
            args: 1,
            slots: 9,
            stack: 0,
        },
    ];
    let items = [
        SiteItem {
            write: true,
            stream: 2,
            window: Some(1),
        },
        SiteItem {
            write: true,
            stream: 2,
            window: Some(2),
        },
        SiteItem {
            write: true,
            stream: 2,
            window: Some(3),
        },
        SiteItem {
            write: true,
            stream: 2,
            window: Some(4),
        },
        SiteItem {
            write: true,
            stream: 2,
            window: Some(5),
        },
        SiteItem {
            write: true,
            stream: 2,
            window: Some(6),
        },
        SiteItem {
            write: true,
            stream: 2,
            window: Some(7),
        },
        SiteItem {
            write: true,
            stream: 2,
            window: Some(8),
        },
    ];
    let claims = [
        Claim {
            stream: 2,
            write: true,
            horizon: 1,
            burst: 1,
            skip: 0,
        },
        Claim {
            stream: 2,
            write: true,
            horizon: 2,
            burst: 2,
            skip: 0,
        },
        Claim {
            stream: 2,
            write: true,
            horizon: 3,
            burst: 3,
            skip: 0,
        },
        Claim {
            stream: 2,
            write: true,
            horizon: 4,
            burst: 4,
            skip: 0,
        },
        Claim {
            stream: 2,
            write: true,
            horizon: 5,
            burst: 5,
            skip: 0,
        },
        Claim {
            stream: 2,
            write: true,
            horizon: 6,
            burst: 6,
            skip: 0,
        },
        Claim {
            stream: 2,
            write: true,
            horizon: 7,
            burst: 7,
            skip: 0,
        },
        Claim {
            stream: 2,
            write: true,
            horizon: 8,
            burst: 8,
            skip: 0,
        },
    ];
    let mut outputs = [0; 36];
    let (one, other) = run_twice(
        alloc,
        &instrs,
        &units,
        0,
        &[0],
        &items,
        &claims,
        &[],
        (&[first], 0),
        (&[second], 0),
        &mut outputs,
    )?;
    Ok((one, other, outputs))
}

const LEAST: i32 = -2147483648;

const MOST: i32 = 2147483647;

#[test]
fn each_instruction_has_its_effect_and_its_traps(rt: HostRuntime) -> Result<(), Fail> {
    all_come_to(&rt, &CASES)
}

#[test]
fn each_form_of_several_instructions_ends_as_they_do(rt: HostRuntime) -> Result<(), Fail> {
    all_come_to(&rt, &FORMS)
}

#[test]
fn each_form_of_windows_and_operators_ends_as_its_instructions_do(
    rt: HostRuntime,
) -> Result<(), Fail> {
    all_come_to(&rt, &FORMS_OF_WINDOWS_AND_OPERATORS)
}

#[test]
fn bodies_that_were_drawn_end_as_step_by_step(rt: HostRuntime) -> Result<(), Fail> {
    all_come_to(&rt, &DRAWN)
}

#[test]
fn operators_give_numbers(rt: HostRuntime) -> Result<(), Fail> {
    for (op, left, right, number) in [
        (Binary::BitOr, -8, 3, -5),
        (Binary::BitXor, -1, 5, -6),
        (Binary::BitAnd, -8, 255, 248),
        (Binary::Equal, 3, 3, 1),
        (Binary::Equal, 3, 4, 0),
        (Binary::Unequal, 3, 3, 0),
        (Binary::Unequal, 3, 4, 1),
        (Binary::Less, -1, 0, 1),
        (Binary::Less, 10, 3, 0),
        (Binary::LessEqual, 3, 3, 1),
        (Binary::LessEqual, 4, 3, 0),
        (Binary::Greater, 10, 3, 1),
        (Binary::Greater, 3, 3, 0),
        (Binary::GreaterEqual, 3, 3, 1),
        (Binary::GreaterEqual, 2, 3, 0),
        (Binary::ShiftLeft, 1, 30, 1073741824),
        (Binary::ShiftLeft, 0, 31, 0),
        (Binary::ShiftRight, -7, 1, -4),
        (Binary::Add, 3, 4, 7),
        (Binary::Subtract, 10, 3, 7),
        (Binary::Multiply, -65536, 32768, LEAST),
        (Binary::Divide, -7, 2, -3),
        (Binary::Divide, 7, -2, -3),
        (Binary::Remainder, -7, 2, -1),
        (Binary::Remainder, 7, -2, 1),
    ] {
        assert!(rt; binary(rt.alloc(), op, [left, right])? == (done(6), number));
    }
    for (op, value, number) in [
        (Unary::Minus, 5, -5),
        (Unary::Plus, LEAST, LEAST),
        (Unary::Not, 0, 1),
        (Unary::Not, LEAST, 0),
        (Unary::Invert, 5, -6),
        (Unary::Invert, LEAST, MOST),
    ] {
        assert!(rt; unary(rt.alloc(), op, value)? == (done(5), number));
    }
    Ok(())
}

#[test]
fn operators_trap_at_their_line(rt: HostRuntime) -> Result<(), Fail> {
    for (op, left, right, code) in [
        (Binary::ShiftLeft, -1, 0, 3),
        (Binary::ShiftLeft, 1, 31, 3),
        (Binary::ShiftLeft, 1, 32, 3),
        (Binary::ShiftLeft, 1, -1, 3),
        (Binary::ShiftRight, 1, 32, 3),
        (Binary::ShiftRight, 5, -1, 3),
        (Binary::Add, MOST, 1, 1),
        (Binary::Add, LEAST, -1, 1),
        (Binary::Subtract, LEAST, 1, 1),
        (Binary::Multiply, 65536, 32768, 1),
        (Binary::Divide, LEAST, -1, 1),
        (Binary::Divide, LEAST, 0, 2),
        (Binary::Remainder, LEAST, -1, 1),
        (Binary::Remainder, 7, 0, 2),
    ] {
        let (ran, _) = binary(rt.alloc(), op, [left, right])?;
        assert!(rt; ran == trapped(code, 4, 4));
    }
    let (ran, _) = unary(rt.alloc(), Unary::Minus, LEAST)?;
    assert!(rt; ran == trapped(1, 4, 3));
    Ok(())
}

#[test]
fn three_calls_deep_a_trap_keeps_its_line(rt: HostRuntime) -> Result<(), Fail> {
    assert!(rt;
        deep(rt.alloc(), (0, 3), (1, 3))?
            == (taking(3, trapped(2, 33, 13)), taking(3, done(18)), [1])
    );
    assert!(rt;
        deep(rt.alloc(), (0, 2), (-1, 4))? == (taking(2, over(9)), taking(3, done(18)), [-1])
    );
    Ok(())
}

#[test]
fn a_trap_in_a_test_behind_a_turn_has_taken_the_turn(rt: HostRuntime) -> Result<(), Fail> {
    let body = [
        Instr::Turn,
        Instr::Load(0),
        Instr::Push(0),
        Instr::Binary {
            op: Binary::Divide,
            line: 4,
        },
        Instr::JumpZero(5),
        Instr::End,
    ];
    let (before, ran, _) = run_alone(rt.alloc(), &body, ([1, 0], 0), ([1, 0], 2))?;
    assert!(rt; before == over(1));
    assert!(rt; ran == taking(1, trapped(2, 4, 4)));
    Ok(())
}

#[test]
fn eight_windows_have_their_own_places(rt: HostRuntime) -> Result<(), Fail> {
    let (first, second, outputs) = eight(rt.alloc(), 4, 3)?;
    assert!(rt; first == trapped(4, 4, 3));
    assert!(rt; second == done(8));
    assert!(rt; (outputs[8], outputs[9], outputs[10], outputs[35]) == (0, 9, 0, 8));
    Ok(())
}
