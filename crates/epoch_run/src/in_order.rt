//! Going on in control order: stretch by stretch, with no plan, as long as each activation finds there what it reads.

ghost use Rattle.std.specs.Prelude.{◌≡◌, ◌++◌, ◌<◌, ◌≤◌, ℕ, IsTrue, List, [], None, true, false, IfOk, IfSome, OnOk, length, map};
ghost use Rattle.control_run.specs.Stretches.{RunSoFar, created_so_far, whole};
ghost use Rattle.epoch_run_bodies.specs.Frames.{frame_outcome};
ghost use Rattle.epoch_run_in_order.specs.Standing.{IsReady, StandsBehind, meaning_in};
ghost use Rattle.epoch_run_in_order_laws.specs.InOrder.{HaveAllEnded};
ghost use Rattle.flow_core_epochs.specs.Epoch.{IsHeld};
ghost use Rattle.flow_core_laws.specs.Limits.{input_limit};
ghost use Rattle.flow_core_laws.specs.declared.activation.Activation.{Activation};
ghost use Rattle.os_code.specs.Codes.{parts_of};
ghost use Rattle.os_code.specs.Outcomes.{main_control};
ghost use Rattle.os_code.specs.declared.code.Code.{Code};
ghost use Rattle.stream_match.specs.Kept.{kept_of};
ghost use Rattle.stream_match_layouts.specs.Layout.{IsLayout, IsLayoutOf, TakesMore};
ghost use Rattle.stream_match_layouts.specs.Spans.{frame_count};
ghost use Rattle.epoch_run.specs.Held.{IsHeldOf};
ghost use Rattle.epoch_run.specs.InOrder.{GoesInOrder, HaveRunInOrder};
ghost use Rattle.epoch_run.specs.Run.{AreBudgets, created};
ghost use Rattle.epoch_run.specs.Standing.{HasCreated, StandsAt};
ghost use Rattle.epoch_run.specs.declared.result.Budgets.{Budgets};

use crate::beside::create;
use crate::portioning::portion_out;
use crate::result::Budgets;
use crate::standing::Standing;
use epoch_run_bodies::laws::later_activations_change_nothing;
use epoch_run_in_order::{HeldInOrder, InOrder};
use epoch_run_portions::STRETCH;
use flow_core_laws::{ACTIVATIONS_LIMIT, ControlEnd, Ends};
use os_code::Code;
use os_io::{List, Memory};
use std::alloc::Global;
use std::mem;
use std::thread::Threads;
use task_workers::Gate;

/// How many activations run before the others are portioned out among several workers.
const ALONE: usize = 1_024;

/// More activations than a run ever has.
const MOST: usize = ACTIVATIONS_LIMIT as usize + 1;

/// Goes on in control order behind activations that all have ended: stretch by stretch, until the control program has ended, or one of a
/// stretch doesn't find there what it reads, or by several workers the bodies of a stretch are long. What has no end then is left to
/// the next epoch. It answers how the control program has ended, once it has. After `Memory` the run is to be given up.
pub(crate) fn run_in_order<'c, R: Threads + Sync, G: Gate>(
    rt: &R,
    standing: &mut Standing<'c>,
    alloc: Global,
    code: &'c Code,
    input: &[u8],
    budgets: Budgets,
    workers: u32,
    gate: &G,
) -> Result<Option<ControlEnd>, Memory>
    requires input { length input.now ≤ input_limit }
    requires budgets { AreBudgets budgets }
    requires stands { StandsAt code.now input.now budgets standing.old }
    requires ran { IsHeldOf (parts_of code.now) (created_so_far standing.old.control) input.now budgets.task standing.old.held }
    requires none { length standing.old.held.without_end ≡ 0 }
    ensures stands { IfOk result (λ _. StandsAt code.now input.now budgets standing.new) }
    ensures grows { IfOk result (λ end. end ≡ None → length (created_so_far standing.old.control) < length (created_so_far standing.new.control)) }
    ensures all { IfOk result (λ end. IfSome end (λ _. created_so_far standing.new.control ≡ created (parts_of code.now) input.now budgets)) }
    ensures end { IfOk result (λ end. IfSome end (λ e. e ≡ (main_control (parts_of code.now) (length input.now) budgets.control).end)) }
{
    later_activations_change_nothing();
    let mut order = begin(standing, alloc, code)?;
    run_on(
        rt, standing, &mut order, alloc, code, input, budgets, workers, gate,
    )?;
    hold(standing, alloc, order)?;
    Ok(standing.control.end())
}

/// Takes how the activations so far ended, and what is kept of them, for a run in control order.
fn begin(standing: &mut Standing<'_>, alloc: Global, code: &Code) -> Result<InOrder, Memory>
    requires whole { IsLayout standing.old.layout }
    requires streams { length standing.old.layout.writers ≡ code.now.streams }
    ensures ready { IfOk result (IsReady code.now) }
    ensures count { IfOk result (λ order. length order.ends ≡ length standing.old.held.ends.ends) }
    ensures stands { IfOk result (λ order. (all before : List Activation) (input : List ℕ) (budget : ℕ) → IsLayoutOf standing.old.layout before
        → IsHeld before input (frame_outcome (parts_of code.now) all budget) standing.old.held.ends.ends (map kept_of standing.old.held.kept.items)
        standing.old.held.ends.output
        → HaveAllEnded (meaning_in (parts_of code.now) all before input budget)
        → StandsBehind (parts_of code.now) all before input budget order) }
    ensures same { OnOk result (standing.new ≡ record standing.old { held = standing.new.held }) }
{
    let nothing = Ends {
        ends: List::new(alloc),
        output: List::new(alloc),
    };
    let ends = mem::replace(&mut standing.held.ends, nothing);
    let order = InOrder::behind(
        alloc,
        code,
        &standing.layout,
        ends,
        standing.held.kept.as_slice(),
    )?;
    Ok(order)
}

/// Runs stretch by stretch, as far as that goes. By several workers what comes behind the first stretches is portioned out among them, where that
/// serves, and what the portions leave goes on stretch by stretch.
fn run_on<'c, R: Threads + Sync, G: Gate>(
    rt: &R,
    standing: &mut Standing<'c>,
    order: &mut InOrder,
    alloc: Global,
    code: &'c Code,
    input: &[u8],
    budgets: Budgets,
    workers: u32,
    gate: &G,
) -> Result<(), Memory>
    requires input { length input.now ≤ input_limit }
    requires budgets { AreBudgets budgets }
    requires ran { HaveRunInOrder code.now input.now budgets standing.old order.old }
    ensures goes { OnOk result (GoesInOrder code.now input.now budgets standing.new order.new) }
    ensures grows { OnOk result (standing.new.control.has_ended ≡ false
        → length (created_so_far standing.old.control) < length (created_so_far standing.new.control)) }
    ensures told { OnOk result (standing.new.control.has_ended ≡ true → created_so_far standing.new.control ≡ (whole standing.new.control).activations) }
{
    if workers == 1 {
        run_stretches(
            standing, order, alloc, code, input, budgets, workers, gate, MOST,
        )?;
        return Ok(());
    }
    let more = run_stretches(
        standing, order, alloc, code, input, budgets, workers, gate, ALONE,
    )?;
    if !more {
        return Ok(());
    }
    let all = portion_out(rt, standing, order, alloc, code, input, budgets, workers)?;
    if !all {
        run_stretches(
            standing, order, alloc, code, input, budgets, workers, gate, MOST,
        )?;
    }
    Ok(())
}

/// Runs stretch by stretch, as far as that goes, and no further than the one with which `until` activations are laid out. It answers whether all so far ran,
/// and more may come.
fn run_stretches<G: Gate>(
    standing: &mut Standing<'_>,
    order: &mut InOrder,
    alloc: Global,
    code: &Code,
    input: &[u8],
    budgets: Budgets,
    workers: u32,
    gate: &G,
    until: usize,
) -> Result<bool, Memory>
    requires budgets { AreBudgets budgets }
    requires ran { HaveRunInOrder code.now input.now budgets standing.old order.old }
    ensures goes { OnOk result (GoesInOrder code.now input.now budgets standing.new order.new) }
    ensures grows { OnOk result (standing.new.control.has_ended ≡ false
        → length (created_so_far standing.old.control) < length (created_so_far standing.new.control)) }
    ensures told { OnOk result (standing.new.control.has_ended ≡ true → created_so_far standing.new.control ≡ (whole standing.new.control).activations) }
    ensures all { IfOk result (λ more. IsTrue more → HaveRunInOrder code.now input.now budgets standing.new order.new) }
{
    let goes_on = 'stretches: loop {
        let goes_on = run_stretch(standing, order, alloc, code, input, budgets, workers, gate)?;
        if ends_here(goes_on, standing.layout.frames(), until) {
            break 'stretches goes_on;
        }
    };
    Ok(goes_on)
}

/// Whether no further stretch is run: the last one didn't run whole, or no more come, or `frames` activations are laid out, which are `until` or more.
fn ends_here(goes_on: bool, frames: usize, until: usize) -> bool
    ensures { result ≡ false → goes_on ≡ true }
{
    !goes_on || frames >= until
}

/// Creates a stretch of activations and runs it, as far as that goes. It answers whether all of them ran, and more may come.
fn run_stretch<G: Gate>(
    standing: &mut Standing<'_>,
    order: &mut InOrder,
    alloc: Global,
    code: &Code,
    input: &[u8],
    budgets: Budgets,
    workers: u32,
    gate: &G,
) -> Result<bool, Memory>
    requires budgets { AreBudgets budgets }
    requires ran { HaveRunInOrder code.now input.now budgets standing.old order.old }
    ensures goes { OnOk result (GoesInOrder code.now input.now budgets standing.new order.new) }
    ensures grows { OnOk result (standing.new.control.has_ended ≡ false
        → length (created_so_far standing.old.control) < length (created_so_far standing.new.control)) }
    ensures told { OnOk result (standing.new.control.has_ended ≡ true → created_so_far standing.new.control ≡ (whole standing.new.control).activations) }
    ensures all { IfOk result (λ more. IsTrue more → HaveRunInOrder code.now input.now budgets standing.new order.new) }
    ensures more { IfOk result (λ more. IsTrue more → standing.new.control.has_ended ≡ false) }
{
    create_stretch(standing, alloc, STRETCH)?;
    let all = run_created(standing, order, code, input, budgets, workers, gate)?;
    if !all {
        return Ok(false);
    }
    order.give_up(alloc, &standing.layout)?;
    Ok(standing.control.end().is_none())
}

/// Has the control program create the next `count` activations, or all that remain, and lays them out. Those before them have ended, and their lists
/// are used again.
pub(crate) fn create_stretch(
    standing: &mut Standing<'_>,
    alloc: Global,
    count: u32,
) -> Result<(), Memory>
    requires some { 1 ≤ count }
    requires laid { IsLayout standing.old.layout }
    requires takes { (after : RunSoFar) (added : List Activation) → HasCreated count standing.old.control after [] added → TakesMore standing.old.layout added }
    ensures created { OnOk result (HasCreated count standing.old.control standing.new.control [] standing.new.activations) }
    ensures first { OnOk result (standing.new.first ≡ frame_count standing.old.layout) }
    ensures laid { OnOk result ((before : List Activation) → IsLayoutOf standing.old.layout before
        → IsLayoutOf standing.new.layout (before ++ standing.new.activations)) }
    ensures streams { OnOk result (length standing.new.layout.writers ≡ length standing.old.layout.writers) }
    ensures input { OnOk result (standing.new.layout.input_len ≡ standing.old.layout.input_len) }
{
    standing.first = standing.layout.frames() as u32;
    let ended = mem::replace(&mut standing.activations, List::new(alloc));
    standing.control.reuse(ended);
    create(&mut standing.control, &mut standing.activations, count)?;
    standing.layout.append(standing.activations.as_slice())?;
    Ok(())
}

/// Runs the activations of a stretch, as far as each of them finds there what it reads, and tells how long their bodies were. It
/// answers whether all of them ran.
fn run_created<G: Gate>(
    standing: &mut Standing<'_>,
    order: &mut InOrder,
    code: &Code,
    input: &[u8],
    budgets: Budgets,
    workers: u32,
    gate: &G,
) -> Result<bool, Memory>
    requires budgets { AreBudgets budgets }
    requires goes { GoesInOrder code.now input.now budgets standing.old order.old }
    requires none_ran { standing.old.first ≡ length order.old.ends }
    ensures goes { OnOk result (GoesInOrder code.now input.now budgets standing.new order.new) }
    ensures all { IfOk result (λ all. IsTrue all → HaveRunInOrder code.now input.now budgets standing.new order.new) }
    ensures same { OnOk result (standing.new ≡ record standing.old { held = standing.new.held }) }
{
    let begun = order.steps;
    let pace = standing.held.pace;
    let count = order.run_all(
        code,
        standing.activations.as_slice(),
        &standing.layout,
        input,
        budgets.task,
        pace.most_steps(workers, standing.activations.len() as u64),
        gate,
    )?;
    standing.held.pace = pace.behind_more(order.steps.saturating_sub(begun), count);
    Ok(count == standing.activations.len())
}

/// Holds what was run, as after an epoch.
fn hold(standing: &mut Standing<'_>, alloc: Global, order: InOrder) -> Result<(), Memory>
    ensures stands { OnOk result ((code : Code) (input : List ℕ) (budgets : Budgets) → GoesInOrder code input budgets standing.old order
        → StandsAt code input budgets standing.new) }
    ensures control { OnOk result (standing.new.control ≡ standing.old.control) }
{
    later_activations_change_nothing();
    let HeldInOrder { ends, kept } = order.hold(alloc)?;
    standing.held.ends = ends;
    standing.held.kept = kept;
    standing.held.without_end = List::new(alloc);
    Ok(())
}
