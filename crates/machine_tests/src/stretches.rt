//! Control programs by stretches: what the calls give together, and when they tell that no more activations come.

ghost use Rattle.std.specs.Prelude.{◌≤◌};
ghost use Rattle.flow_core_laws.specs.Limits.{budget_limit};

use crate::controls::loop_code;
use control_run::{ControlRun, run_control};
use flow_core_laws::{Control, ControlEnd};
use os_code::Code;
use os_io::{List, Memory};
use std::alloc::Global;
use std::test::Fail;

/// How many rounds the loop makes, its window, what is added to its bursts, and the budget; how many activations come
/// of it, the end, and how many steps and turns the run takes.
type Case = (i32, i32, i32, u32, usize, ControlEnd, u64, u64);

// Two steps come before the loop. A round takes a turn, 12 steps with the `Spawn`, and 5 behind it; the last test takes 5 and
// the end one. A `Turn` that finds no turn left and a `Spawn` that ends the run are steps too.
const CASES: [Case; 8] = [
    (0, 1, 0, 100, 0, ControlEnd::Done, 8, 1),
    (6, 1, 0, 100, 6, ControlEnd::Done, 110, 7),
    (7, 1, 0, 100, 7, ControlEnd::Done, 127, 8),
    // the sixth turn is over the budget; the burst of the fifth activation is too large
    (7, 1, 0, 5, 5, ControlEnd::OverBudget, 88, 5),
    (
        7,
        1,
        65533,
        100,
        4,
        ControlEnd::Trapped { code: 7, line: 90 },
        82,
        5,
    ),
    (65, 65535, 0, 100, 64, ControlEnd::Limit(2), 1102, 65),
    (4096, 1, 0, 5000, 4096, ControlEnd::Done, 69640, 4097),
    (
        65537,
        63,
        0,
        1000000,
        65536,
        ControlEnd::Limit(1),
        1114126,
        65537,
    ),
];

const STRETCHES: [u32; 4] = [1, 2, 3, 4096];

/// What a run gives by stretches of at most `at_most` activations, once it has told its end, and how many steps and turns it took.
fn in_stretches(
    alloc: Global,
    code: &Code,
    budget: u64,
    at_most: u32,
) -> Result<Option<(Control, u64, u64)>, Memory>
    requires budget { budget ≤ budget_limit }
    requires some { 1 ≤ at_most }
{
    let mut run = ControlRun::new(alloc, code, 0, budget)?;
    let mut activations = List::new(alloc);
    for _ in 0..65537 {
        if run.advance(&mut activations, at_most)? {
            break;
        }
    }
    match (run.end(), run.steps(), run.turns()) {
        (Some(end), Some(steps), Some(turns)) => Ok(Some((
            Control { activations, end },
            steps,
            turns,
        ))),
        _ => Ok(None),
    }
}

/// Whether two runs made the same activations, and ended the same way.
fn is_same(one: &Control, other: &Control) -> bool {
    one.end == other.end
        && one.activations.len() == other.activations.len()
        && one
            .activations
            .as_slice()
            .iter()
            .zip(other.activations.as_slice())
            .all(|(a, b)| {
                a.site == b.site
                    && a.captured.as_slice() == b.captured.as_slice()
                    && a.claims.as_slice() == b.claims.as_slice()
            })
}

/// Whether a run of a loop gives the same by stretches as at once, and what the case says.
fn gives_the_same(alloc: Global, case: &Case, at_most: u32) -> Result<bool, Memory>
    requires { 1 ≤ at_most }
{
    let (times, window, more, budget, count, end, steps, turns) = *case;
    let budget = u64::from(budget.min(1000000000));
    let code = loop_code(alloc, times, window, more)?;
    let whole = run_control(alloc, &code, 0, budget)?;
    match in_stretches(alloc, &code, budget, at_most)? {
        Some((parts, made, taken)) => Ok(
            is_same(&whole, &parts)
                && whole.activations.len() == count
                && whole.end == end
                && made == steps
                && taken == turns,
        ),
        None => Ok(false),
    }
}

#[test]
fn stretches_give_what_a_whole_run_gives(rt: HostRuntime) -> Result<(), Fail> {
    for case in &CASES {
        for at_most in &STRETCHES {
            assert!(rt; gives_the_same(rt.alloc(), case, (*at_most).max(1))?);
        }
    }
    Ok(())
}

#[test]
fn a_run_tells_its_end_with_the_first_stretch_that_falls_short(
    rt: HostRuntime,
) -> Result<(), Fail> {
    let alloc = rt.alloc();
    let code = loop_code(alloc, 65537, 63, 0)?;
    let mut run = ControlRun::new(alloc, &code, 0, 1000000)?;
    let mut activations = List::new(alloc);
    for (at_most, told, count) in [
        (40000u32, false, 40000),
        (25536, false, 65536),
        (1, true, 65536),
    ] {
        assert!(rt; run.end() == None);
        assert!(rt; run.steps() == None && run.turns() == None);
        assert!(rt; run.advance(&mut activations, at_most.max(1))? == told);
        assert!(rt; activations.len() == count);
    }
    assert!(rt; run.end() == Some(ControlEnd::Limit(1)));
    Ok(())
}
