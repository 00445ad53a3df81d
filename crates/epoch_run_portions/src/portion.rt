//! A worker's portion of a run.

ghost use Rattle.std.specs.Prelude.{◌≡◌, ◌+◌, ◌≤◌, IfOk, OnOk, length, true};
ghost use Rattle.flow_core_laws.specs.Limits.{budget_limit, input_limit};
ghost use Rattle.os_code.specs.Codes.{parts_of};
ghost use Rattle.epoch_run_in_order.specs.Standing.{IsReady};
ghost use Rattle.epoch_run_portions.specs.Running.{Stands, StandsWithin};
ghost use Rattle.epoch_run_portions.specs.Portion.{IsPortion};
ghost use Rattle.epoch_run_portions.specs.Walk.{IsSameRun};

use crate::running::run_all;
use crate::walk::{STRETCH, Walk};
use epoch_run_in_order::Apart;
use os_code::Code;
use os_io::Memory;
use std::alloc::Global;

/// How many activations later than it was asked to a portion may begin at most.
const LATER: u32 = 64;

/// Runs a portion of the activations that a code creates over an input: from about `from` on, in control order, apart from those before. It
/// begins where they need nothing of those before, a few activations later if need be. It ends where one of them reads what was written
/// before the portion's first one, or where `to` activations in all were passed, or where no more come.
/// What it answers tells from which one on they ran, and how they ended.
pub fn run_portion(
    alloc: Global,
    code: &Code,
    input: &[u8],
    control_budget: u64,
    task_budget: u64,
    from: u32,
    to: u32,
) -> Result<Apart, Memory>
    requires input { length input.now ≤ input_limit }
    requires budgets { (control_budget ≤ budget_limit) × (task_budget ≤ budget_limit) }
    ensures ready { IfOk result (λ apart. IsReady code.now apart.order) }
    ensures portion { IfOk result (λ apart. IsPortion (parts_of code.now) input.now control_budget task_budget apart) }
{
    let mut walk = Walk::new(alloc, code, input.len() as u32, control_budget)?;
    walk.pass_to(alloc, from)?;
    let mut apart = Apart::behind(
        alloc,
        code,
        walk.positions.count,
        walk.positions.cursors.writes.as_slice(),
    )?;
    let latest = from.saturating_add(LATER);
    run_stretches(
        &mut walk,
        &mut apart,
        alloc,
        code,
        input,
        task_budget,
        latest,
        to,
    )?;
    Ok(apart)
}

/// Runs stretch by stretch, until `to` activations were passed, or as far as it goes.
fn run_stretches(
    walk: &mut Walk<'_>,
    apart: &mut Apart,
    alloc: Global,
    code: &Code,
    input: &[u8],
    budget: u64,
    latest: u32,
    to: u32,
) -> Result<(), Memory>
    requires budget { budget ≤ budget_limit }
    requires stands { Stands code.now input.now budget walk.old apart.old }
    ensures { OnOk result (StandsWithin code.now input.now budget walk.old.control apart.new) }
{
    'stretches: while walk.positions.count < to {
        let at_most = (to - walk.positions.count).min(STRETCH);
        let goes_on = run_stretch(walk, apart, alloc, code, input, budget, latest, at_most)?;
        if !goes_on {
            break 'stretches;
        }
    }
    Ok(())
}

/// Has the control program create a stretch of activations, and runs them. It answers whether the portion goes on.
fn run_stretch(
    walk: &mut Walk<'_>,
    apart: &mut Apart,
    alloc: Global,
    code: &Code,
    input: &[u8],
    budget: u64,
    latest: u32,
    at_most: u32,
) -> Result<bool, Memory>
    requires some { 1 ≤ at_most }
    requires budget { budget ≤ budget_limit }
    requires stands { Stands code.now input.now budget walk.old apart.old }
    ensures within { OnOk result (StandsWithin code.now input.now budget walk.old.control apart.new) }
    ensures stands { IfOk result (λ goes_on. goes_on ≡ true → Stands code.now input.now budget walk.new apart.new) }
    ensures same { OnOk result (IsSameRun walk.old.control walk.new.control) }
    ensures grows { IfOk result (λ goes_on. goes_on ≡ true → walk.new.positions.count ≡ walk.old.positions.count + at_most) }
{
    let ended = walk.next_stretch(alloc, at_most)?;
    let all = run_all(
        &mut walk.positions,
        apart,
        alloc,
        code,
        walk.activations.as_slice(),
        input,
        budget,
        latest,
    )?;
    Ok(all && !ended)
}
