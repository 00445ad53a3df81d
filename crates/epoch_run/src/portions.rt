//! The portions of a run, each of which a thread runs.

ghost use Rattle.std.specs.Prelude.{◌≡◌, ◌≤◌, ℕ, List, true, IfOk, IfSome, OnOk, length};
ghost use Rattle.flow_core_laws.specs.Limits.{input_limit};
ghost use denote.Param.Send.{IsSync};
ghost use Rattle.control_run.specs.Stretches.{created_so_far, whole};
ghost use Rattle.os_code.specs.Codes.{parts_of};
ghost use Rattle.os_code.specs.declared.code.Code.{Code};
ghost use Rattle.epoch_run_in_order.specs.Standing.{IsReady};
ghost use Rattle.epoch_run_portions.specs.Portion.{IsPortion};
ghost use Rattle.epoch_run.specs.InOrder.{AreLaidOut, HaveRunInOrder};
ghost use Rattle.epoch_run.specs.Run.{AreBudgets};
ghost use Rattle.epoch_run.specs.Portioning.{FirstOnesRan, IsLaidOut, PortionsOut};
ghost use Rattle.epoch_run.specs.declared.result.Budgets.{Budgets};

use crate::borders::Borders;
use crate::in_order::create_stretch;
use crate::result::Budgets;
use crate::standing::Standing;
use epoch_run_in_order::{Apart, InOrder};
use epoch_run_portions::{STRETCH, run_portion};
use os_code::Code;
use os_io::Memory;
use std::alloc::Global;
use std::thread::{Threads, join_mut};

/// Runs the portions up to a number, each by a thread of its own, for which this one waits. The first portion's has the control program create all
/// activations, and lays them out. What ran is put behind those that had run before. After `Memory` the run is to be given up.
pub(crate) fn run_portions<R: Threads + Sync>(
    rt: &R,
    standing: &mut Standing<'_>,
    order: &mut InOrder,
    alloc: Global,
    code: &Code,
    input: &[u8],
    budgets: Budgets,
    borders: Borders,
    number: u32,
) -> Result<(), Memory>
    requires input { length input.now ≤ input_limit }
    requires budgets { AreBudgets budgets }
    requires ran { HaveRunInOrder code.now input.now budgets standing.old order.old }
    ensures { OnOk result (PortionsOut code.now input.now budgets standing.new order.old order.new) }
{
    if number == 0 {
        return lead_apart(rt, standing, order, alloc, code, input, budgets, borders);
    }
    let mut portion: Option<Apart> = None;
    let mut own = || -> Result<(), Memory>
        requires { (length input.now ≤ input_limit) × AreBudgets budgets }
        ensures { OnOk result (IfSome portion.exit (λ apart. IsReady code.entry.now apart.order
            × IsPortion (parts_of code.entry.now) input.entry.now budgets.control budgets.task apart)) }
    { set_portion(alloc, code, input, budgets, borders, number, &mut portion) };
    let mut others = || -> Result<(), Memory>
        requires { IsSync R.row × (1 ≤ number) × (length input.now ≤ input_limit) × AreBudgets budgets
            × HaveRunInOrder code.now input.now budgets standing.now order.now }
        ensures { OnOk result (PortionsOut code.entry.now input.entry.now budgets standing.exit.now order.entry.now order.exit.now) }
    {
        run_portions(
            rt,
            standing,
            order,
            alloc,
            code,
            input,
            budgets,
            borders,
            number - 1,
        )
    };
    let (ran, led) = join_mut(rt, &mut own, &mut others);
    led?;
    ran?;
    join_some(order, portion)?;
    Ok(())
}

/// Runs a portion, and puts it into a place.
fn set_portion(
    alloc: Global,
    code: &Code,
    input: &[u8],
    budgets: Budgets,
    borders: Borders,
    number: u32,
    portion: &mut Option<Apart>,
) -> Result<(), Memory>
    requires input { length input.now ≤ input_limit }
    requires budgets { AreBudgets budgets }
    ensures portion { OnOk result (IfSome portion.new (λ apart. IsReady code.now apart.order
        × IsPortion (parts_of code.now) input.now budgets.control budgets.task apart)) }
{
    let apart = run_numbered(alloc, code, input, budgets, borders, number)?;
    *portion = Some(apart);
    Ok(())
}

/// Runs the portion of a number.
fn run_numbered(
    alloc: Global,
    code: &Code,
    input: &[u8],
    budgets: Budgets,
    borders: Borders,
    number: u32,
) -> Result<Apart, Memory>
    requires input { length input.now ≤ input_limit }
    requires budgets { AreBudgets budgets }
    ensures ready { IfOk result (λ apart. IsReady code.now apart.order) }
    ensures portion { IfOk result (λ apart. IsPortion (parts_of code.now) input.now budgets.control budgets.task apart) }
{
    run_portion(
        alloc,
        code,
        input,
        budgets.control,
        budgets.task,
        borders.begin(number),
        borders.end(number),
    )
}

/// Has a thread of its own lead, and waits for it. A system may begin a thread on the processor of the one that started it: did this one go on, the
/// other would wait there until one of the two is moved, which takes milliseconds.
fn lead_apart<R: Threads + Sync>(
    rt: &R,
    standing: &mut Standing<'_>,
    order: &mut InOrder,
    alloc: Global,
    code: &Code,
    input: &[u8],
    budgets: Budgets,
    borders: Borders,
) -> Result<(), Memory>
    requires input { length input.now ≤ input_limit }
    requires budgets { AreBudgets budgets }
    requires ran { HaveRunInOrder code.now input.now budgets standing.old order.old }
    ensures { OnOk result (PortionsOut code.now input.now budgets standing.new order.old order.new) }
{
    let mut first = || -> Result<(), Memory>
        requires { (length input.now ≤ input_limit) × AreBudgets budgets × HaveRunInOrder code.now input.now budgets standing.now order.now }
        ensures { OnOk result (PortionsOut code.entry.now input.entry.now budgets standing.exit.now order.entry.now order.exit.now) }
    { lead(standing, order, alloc, code, input, budgets, borders) };
    let mut wait = || {};
    let (led, _) = join_mut(rt, &mut first, &mut wait);
    led
}

/// Has the control program create all activations, lays them out, and runs the first portion.
fn lead(
    standing: &mut Standing<'_>,
    order: &mut InOrder,
    alloc: Global,
    code: &Code,
    input: &[u8],
    budgets: Budgets,
    borders: Borders,
) -> Result<(), Memory>
    requires input { length input.now ≤ input_limit }
    requires budgets { AreBudgets budgets }
    requires ran { HaveRunInOrder code.now input.now budgets standing.old order.old }
    ensures { OnOk result (PortionsOut code.now input.now budgets standing.new order.old order.new) }
{
    lay_out_rest(standing, alloc)?;
    let apart = run_numbered(alloc, code, input, budgets, borders, 0)?;
    join_one(order, &apart)?;
    Ok(())
}

/// Has the control program create the activations that remain, and lays them out.
fn lay_out_rest(standing: &mut Standing<'_>, alloc: Global) -> Result<(), Memory>
    requires laid { IsLaidOut standing.old.control standing.old.layout }
    ensures laid { OnOk result ((code : Code) (input : List ℕ) (budgets : Budgets) → AreLaidOut code input budgets standing.old.control standing.old.layout
        → AreLaidOut code input budgets standing.new.control standing.new.layout) }
    ensures ended { OnOk result (standing.new.control.has_ended ≡ true) }
    ensures told { OnOk result (created_so_far standing.new.control ≡ (whole standing.new.control).activations) }
{
    'stretches: loop {
        create_stretch(standing, alloc, STRETCH)?;
        if standing.control.end().is_some() {
            break 'stretches;
        }
    }
    Ok(())
}

/// Puts a portion behind those that ran, if it is there.
fn join_some(order: &mut InOrder, portion: Option<Apart>) -> Result<(), Memory>
    ensures no_fewer { OnOk result (length order.old.ends ≤ length order.new.ends) }
    ensures ran { OnOk result ((code : Code) (input : List ℕ) (budgets : Budgets)
        → IfSome portion (λ apart. IsReady code apart.order × IsPortion (parts_of code) input budgets.control budgets.task apart)
        → FirstOnesRan code input budgets order.old → FirstOnesRan code input budgets order.new) }
{
    match portion {
        Some(apart) => join_one(order, &apart),
        None => Ok(()),
    }
}

/// Puts a portion behind those that ran, if it goes on where these end.
fn join_one(order: &mut InOrder, apart: &Apart) -> Result<(), Memory>
    ensures no_fewer { OnOk result (length order.old.ends ≤ length order.new.ends) }
    ensures ran { OnOk result ((code : Code) (input : List ℕ) (budgets : Budgets) → IsReady code apart.now.order
        → IsPortion (parts_of code) input budgets.control budgets.task apart.now
        → FirstOnesRan code input budgets order.old → FirstOnesRan code input budgets order.new) }
{
    let ran = order.ends.len();
    let first = apart.first as usize;
    if first > ran || first.saturating_add(apart.order.ends.len()) < ran {
        return Ok(());
    }
    order.join(apart)?;
    Ok(())
}
