//! Tasks written out, which run twice with one scratch.

ghost use Rattle.std.specs.Prelude.{◌≡◌, ◌≤◌, length, true, IfOk};
ghost use Rattle.flow_core_laws.specs.Limits.{budget_limit};
ghost use Rattle.os_code.specs.Checking.{is_valid};
ghost use Rattle.machine_tests.specs.Written.{is_run, written_code};

use crate::written::{code_of, list_of};
use flow_core_laws::{Activation, Claim, TaskEnd};
use os_code::{CodeUnit, Instr, SiteItem};
use os_io::Memory;
use std::alloc::Global;
use task_vm::{Scratch, run_task};

/// A run's end, how many steps it made, and how many turns of its budget it took.
#[derive(Clone, Copy, Debug, PartialEq, Eq)]
pub(crate) struct Ran {
    pub end: TaskEnd,
    pub steps: u64,
    pub turns: u64,
}

/// An activation of the code's site.
fn activation_of(alloc: Global, values: &[i32], claims: &[Claim]) -> Result<Activation, Memory>
    ensures site { IfOk result (λ activation. activation.site ≡ 0) }
    ensures captured { IfOk result (λ activation. activation.captured ≡ values.now) }
    ensures claims { IfOk result (λ activation. activation.claims ≡ claims.now) }
{
    Ok(Activation {
        site: 0,
        captured: list_of(alloc, values)?,
        claims: list_of(alloc, claims)?,
    })
}

/// Runs a task twice with one scratch: with some captured values and a budget, and then with others.
pub(crate) fn run_twice(
    alloc: Global,
    instrs: &[Instr],
    units: &[CodeUnit],
    task: u32,
    captured: &[u32],
    items: &[SiteItem],
    claims: &[Claim],
    inputs: &[i32],
    first: (&[i32], u64),
    second: (&[i32], u64),
    outputs: &mut [i32],
) -> Result<(Ran, Ran), Memory>
    requires some { 1 ≤ length units.now }
    requires few { length units.now ≤ 1000 }
    requires valid { is_valid (written_code instrs.now units.now task captured.now items.now) ≡ true }
    requires first { is_run captured.now items.now first.0.now claims.now (length inputs.now) (length outputs.old) ≡ true }
    requires second { is_run captured.now items.now second.0.now claims.now (length inputs.now) (length outputs.old) ≡ true }
    requires budget { first.1 ≤ budget_limit }
    requires other_budget { second.1 ≤ budget_limit }
{
    let code = code_of(alloc, instrs, units, task, captured, items)?;
    let mut scratch = Scratch::new(alloc, &code)?;
    let activation = activation_of(alloc, first.0, claims)?;
    let end = run_task(&code, &activation, inputs, outputs, &mut scratch, first.1);
    let ran = Ran {
        end,
        steps: scratch.steps(),
        turns: scratch.turns(),
    };
    let activation = activation_of(alloc, second.0, claims)?;
    let end = run_task(&code, &activation, inputs, outputs, &mut scratch, second.1);
    Ok((
        ran,
        Ran {
            end,
            steps: scratch.steps(),
            turns: scratch.turns(),
        },
    ))
}
