//! Portioning a run in control order out among several workers.

ghost use Rattle.std.specs.Prelude.{◌≡◌, ◌≤◌, ℕ, List, [], false, true, IfOk, OnOk, length};
ghost use Rattle.flow_core_laws.specs.Limits.{input_limit};
ghost use Rattle.control_run.specs.Stretches.{created_so_far, whole};
ghost use Rattle.os_code.specs.Codes.{parts_of};
ghost use Rattle.os_code.specs.declared.code.Code.{Code};
ghost use Rattle.epoch_run.specs.InOrder.{AreLaidOut, GoesInOrder, HaveRunInOrder};
ghost use Rattle.epoch_run.specs.Run.{AreBudgets, created};
ghost use Rattle.epoch_run.specs.Portioning.{ArePortionedOut, IsLaidOut};
ghost use Rattle.epoch_run.specs.declared.result.Budgets.{Budgets};

use crate::borders::Borders;
use crate::in_order::create_stretch;
use crate::portions::run_portions;
use crate::result::Budgets;
use crate::standing::Standing;
use control_run::ControlRun;
use epoch_run_in_order::InOrder;
use epoch_run_portions::{STRETCH, run_portion};
use os_code::Code;
use os_io::{List, Memory};
use std::alloc::Global;
use std::thread::Threads;
use stream_match::Layout;

/// How many activations are run apart from those before them to see whether that can be done.
const TRIED: u32 = 256;

/// Portions the activations that haven't run out among several workers, where bodies are long enough for that and those that come next can be run
/// apart from those before them. It answers whether all activations ran; else the run stands behind the first ones, which did, and goes on from
/// there. After `Memory` it is to be given up.
pub(crate) fn portion_out<'c, R: Threads + Sync>(
    rt: &R,
    standing: &mut Standing<'c>,
    order: &mut InOrder,
    alloc: Global,
    code: &'c Code,
    input: &[u8],
    budgets: Budgets,
    workers: u32,
) -> Result<bool, Memory>
    requires input { length input.now ≤ input_limit }
    requires budgets { AreBudgets budgets }
    requires ran { HaveRunInOrder code.now input.now budgets standing.old order.old }
    ensures goes { IfOk result (λ all. all ≡ true → GoesInOrder code.now input.now budgets standing.new order.new) }
    ensures ended { IfOk result (λ all. all ≡ true → standing.new.control.has_ended ≡ true) }
    ensures told { IfOk result (λ all. all ≡ true → created_so_far standing.new.control ≡ (whole standing.new.control).activations) }
    ensures stays { IfOk result (λ all. all ≡ false → HaveRunInOrder code.now input.now budgets standing.new order.new) }
    ensures no_fewer { IfOk result (λ all. all ≡ false → length (created_so_far standing.old.control) ≤ length (created_so_far standing.new.control)) }
    ensures none_lost { OnOk result (length order.old.ends ≤ length order.new.ends) }
{
    let first = order.ends.len() as u32;
    if !is_worth_a_try(standing, first, workers) {
        return Ok(false);
    }
    standing.tried = first;
    let apart = runs_apart(alloc, code, input, budgets, first)?;
    if !apart {
        return Ok(false);
    }
    let borders = Borders::behind(&standing.layout, standing.held.pace, workers);
    run_portions(
        rt,
        standing,
        order,
        alloc,
        code,
        input,
        budgets,
        borders,
        borders.last(),
    )?;
    let all = take_up(standing, order, alloc, code, input, budgets)?;
    Ok(all)
}

/// Whether `workers` workers are to try to portion out a run behind `first` activations: bodies are long enough, and at least twice as many activations
/// have run as at the last try. So what all tries pass together grows with the number of activations, and not with its square.
fn is_worth_a_try(standing: &Standing<'_>, first: u32, workers: u32) -> bool {
    standing.held.pace.is_worth_portions(workers) && first >= standing.tried.saturating_mul(2)
}

/// Whether some activations from a number on run apart from those before them.
fn runs_apart(
    alloc: Global,
    code: &Code,
    input: &[u8],
    budgets: Budgets,
    first: u32,
) -> Result<bool, Memory>
    requires input { length input.now ≤ input_limit }
    requires budgets { AreBudgets budgets }
{
    let end = first.saturating_add(TRIED);
    let apart = run_portion(
        alloc,
        code,
        input,
        budgets.control,
        budgets.task,
        first,
        end,
    )?;
    let ran = (apart.first as usize).saturating_add(apart.order.ends.len());
    Ok(ran >= end as usize)
}

/// Has a run that was portioned out stand behind the activations that ran. It answers whether these are all; else the control program has come too far,
/// as the layout has, and both are made anew for these alone.
fn take_up<'c>(
    standing: &mut Standing<'c>,
    order: &InOrder,
    alloc: Global,
    code: &'c Code,
    input: &[u8],
    budgets: Budgets,
) -> Result<bool, Memory>
    requires input { length input.now ≤ input_limit }
    requires budgets { AreBudgets budgets }
    requires portioned { ArePortionedOut code.now input.now budgets standing.old.control standing.old.layout order.now }
    ensures goes { IfOk result (λ all. all ≡ true → GoesInOrder code.now input.now budgets standing.new order.now) }
    ensures ended { IfOk result (λ all. all ≡ true → standing.new.control.has_ended ≡ true) }
    ensures told { IfOk result (λ all. all ≡ true → created_so_far standing.new.control ≡ (whole standing.new.control).activations) }
    ensures stays { IfOk result (λ all. all ≡ false → HaveRunInOrder code.now input.now budgets standing.new order.now) }
{
    standing.first = order.ends.len() as u32;
    standing.activations = List::new(alloc);
    if order.ends.len() >= standing.layout.frames() {
        return Ok(true);
    }
    create_anew(
        standing,
        alloc,
        code,
        input,
        budgets,
        order.ends.len() as u32,
    )?;
    Ok(false)
}

/// Has the control program create the first `count` activations anew, and lays out these alone. They have run, so that none of them stays in the list.
fn create_anew<'c>(
    standing: &mut Standing<'c>,
    alloc: Global,
    code: &'c Code,
    input: &[u8],
    budgets: Budgets,
    count: u32,
) -> Result<(), Memory>
    requires input { length input.now ≤ input_limit }
    requires budgets { AreBudgets budgets }
    requires within { count ≤ length (created (parts_of code.now) input.now budgets) }
    ensures laid { OnOk result (AreLaidOut code.now input.now budgets standing.new.control standing.new.layout) }
    ensures count { OnOk result (length (created_so_far standing.new.control) ≡ count) }
    ensures first { OnOk result (standing.new.first ≡ count) }
    ensures none { OnOk result (standing.new.activations ≡ []) }
{
    let control = ControlRun::new(alloc, code, input.len() as u32, budgets.control)?;
    let layout = Layout::new(alloc, code.streams, input.len() as u32)?;
    standing.control = control;
    standing.layout = layout;
    lay_out_first(standing, alloc, count)?;
    standing.first = count;
    standing.activations = List::new(alloc);
    Ok(())
}

/// Has a control program that has created nothing yet create `count` activations, stretch by stretch, and lays them out.
fn lay_out_first(standing: &mut Standing<'_>, alloc: Global, count: u32) -> Result<(), Memory>
    requires laid { IsLaidOut standing.old.control standing.old.layout }
    requires none { length (created_so_far standing.old.control) ≡ 0 }
    requires within { count ≤ length (whole standing.old.control).activations }
    ensures laid { OnOk result ((code : Code) (input : List ℕ) (budgets : Budgets) → AreLaidOut code input budgets standing.old.control standing.old.layout
        → AreLaidOut code input budgets standing.new.control standing.new.layout) }
    ensures count { OnOk result (length (created_so_far standing.new.control) ≡ count) }
{
    let mut left = count;
    'stretches: while left > 0 {
        let next = stretch_of(left);
        create_stretch(standing, alloc, next)?;
        left -= next;
    }
    Ok(())
}

/// How many activations the next stretch has, where `left` are left.
fn stretch_of(left: u32) -> u32
    requires { 1 ≤ left }
    ensures some { 1 ≤ result }
    ensures few { result ≤ left }
{
    left.min(STRETCH)
}
