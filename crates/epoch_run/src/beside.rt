ghost use Rattle.std.specs.Prelude.{◌≡◌, ◌≤◌, IfOk, List, OnOk, length, nat_lt};
ghost use denote.Param.Send.{IsSync};
ghost use Rattle.control_run.specs.Stretches.{RunSoFar, remaining};
ghost use Rattle.flow_core_laws.specs.Limits.{workers_limit};
ghost use Rattle.flow_core_laws.specs.declared.activation.Activation.{Activation};
ghost use Rattle.os_code.specs.Codes.{parts_of};
ghost use Rattle.stream_match_layouts.specs.Layout.{TakesMore};
ghost use Rattle.epoch_run.specs.Bodies.{HaveOpen, all_of};
ghost use Rattle.epoch_run.specs.Held.{IsHeldOf, IsOpenEpoch};
ghost use Rattle.epoch_run.specs.NextSpans.{ComeBehind, joined};
ghost use Rattle.epoch_run.specs.Standing.{HasAdvanced, HasCreated};

use crate::epoch::run_epoch;
use crate::held::Held;
use crate::next_spans::NextSpans;
use crate::open_bodies::OpenBodies;
use crate::size::EpochSize;
use control_run::ControlRun;
use flow_core_laws::Activation;
use os_io::{List, Memory};
use std::alloc::Global;
use std::thread::{Threads, join_mut};
use stream_match::Layout;
use task_workers::Gate;

/// Runs an epoch, and at once has the control program create the new activations of the next one: they are put behind those
/// of a list, and their positions are worked out. After `Memory` all that was lent may be anything, and the caller gives the run
/// up.
pub(crate) fn run_and_advance<R: Threads + Sync, G: Gate>(
    rt: &R,
    alloc: Global,
    bodies: &OpenBodies<'_>,
    layout: &Layout,
    input: &[u8],
    workers: u32,
    gate: &G,
    held: &mut Held,
    control: &mut ControlRun<'_>,
    next: &mut List<Activation>,
    size: EpochSize,
) -> Result<NextSpans, Memory>
    requires workers { (1 ≤ workers) × (workers ≤ workers_limit) }
    requires open { IsOpenEpoch bodies.now.code.now (all_of bodies.now) bodies.now.budgets.task layout.now input.now held.old }
    requires there { HaveOpen bodies.now held.old.ends.ends }
    requires some { 1 ≤ size.activations }
    requires takes { (after : RunSoFar) (added : List Activation)
        → HasAdvanced size.activations control.old after next.old added → TakesMore layout.now added }
    ensures held { OnOk result (IsHeldOf (parts_of bodies.now.code.now) (all_of bodies.now) input.now bodies.now.budgets.task held.new) }
    ensures advanced { OnOk result (HasAdvanced size.activations control.old control.new next.old next.new) }
    ensures laid { IfOk result (λ laid. ComeBehind layout.now next.new laid) }
{
    let new = (bodies.count as usize).saturating_sub(held.ends.ends.len());
    let mut laid = NextSpans::behind(alloc, layout, new)?;
    let mut run = || -> Result<(), Memory>
        requires { IsSync R.row × IsSync G.row × (1 ≤ workers) × (workers ≤ workers_limit)
            × IsOpenEpoch bodies.now.code.now (all_of bodies.now) bodies.now.budgets.task layout.now input.now held.now
            × HaveOpen bodies.now held.now.ends.ends }
        ensures { OnOk result (IsHeldOf (parts_of bodies.entry.now.code.now) (all_of bodies.entry.now) input.entry.now
            bodies.entry.now.budgets.task held.exit.now) }
    { run_epoch(rt, alloc, bodies, layout, input, workers, gate, held) };
    let mut create = || -> Result<(), Memory>
        requires { (1 ≤ size.activations)
            × ((after : RunSoFar) (added : List Activation) → HasAdvanced size.activations control.now after next.now added → TakesMore layout.now added)
            × (joined layout.now laid ≡ layout.now) }
        ensures { OnOk result (HasAdvanced size.activations control.entry.now control.exit.now next.entry.now next.exit.now
            × ComeBehind layout.entry.now next.exit.now laid.exit) }
    { advance_and_lay_out(layout, control, next, &mut laid, size) };
    let (created, ran) = join_mut(rt, &mut create, &mut run);
    ran?;
    created?;
    Ok(laid)
}

/// Has the control program create the new activations of an epoch, and works out their positions behind a layout.
fn advance_and_lay_out(
    layout: &Layout,
    control: &mut ControlRun<'_>,
    next: &mut List<Activation>,
    laid: &mut NextSpans,
    size: EpochSize,
) -> Result<(), Memory>
    requires some { 1 ≤ size.activations }
    requires takes { (after : RunSoFar) (added : List Activation)
        → HasAdvanced size.activations control.old after next.old added → TakesMore layout.now added }
    requires none { joined layout.now laid.old ≡ layout.now }
    ensures advanced { OnOk result (HasAdvanced size.activations control.old control.new next.old next.new) }
    ensures laid { OnOk result (ComeBehind layout.now next.new laid.new) }
{
    advance(control, next, size)?;
    laid.add_all(layout, next.as_slice())?;
    Ok(())
}

/// Has the control program create the new activations of an epoch. Room for all that it may have is taken before, so that none of
/// them is moved.
pub(crate) fn advance(
    control: &mut ControlRun<'_>,
    next: &mut List<Activation>,
    size: EpochSize,
) -> Result<(), Memory>
    requires { 1 ≤ size.activations }
    ensures { OnOk result (HasAdvanced size.activations control.old control.new next.old next.new) }
{
    next.reserve(size.activations as usize)?;
    create_stretches(control, next, size)?;
    Ok(())
}

/// Has the control program create the new activations of an epoch, stretch by stretch.
fn create_stretches(
    control: &mut ControlRun<'_>,
    next: &mut List<Activation>,
    size: EpochSize,
) -> Result<(), Memory>
    requires { 1 ≤ size.activations }
    ensures { OnOk result (HasAdvanced size.activations control.old control.new next.old next.new) }
{
    let mut begun = next.len();
    let mut left = size.activations;
    let mut count = stretch_of(size, left);
    let mut ended = create(control, next, count)?;
    left -= count;
    let mut elements = elements_from(next.as_slice(), begun);
    'stretches: while !ended && left > 0 && elements < size.elements {
        begun = next.len();
        count = stretch_of(size, left);
        ended = create(control, next, count)?;
        left -= count;
        elements = elements.saturating_add(elements_from(next.as_slice(), begun));
    }
    Ok(())
}

/// How many activations the next stretch of an epoch has, where `left` are left to it.
fn stretch_of(size: EpochSize, left: u32) -> u32
    requires { 1 ≤ left }
    ensures some { 1 ≤ result }
    ensures few { result ≤ left }
{
    size.stretch.clamp(1, left)
}

/// Has the control program create the next `count` activations, or all that remain. It answers whether fewer remained.
pub(crate) fn create(
    control: &mut ControlRun<'_>,
    next: &mut List<Activation>,
    count: u32,
) -> Result<bool, Memory>
    requires { 1 ≤ count }
    ensures created { OnOk result (HasCreated count control.old control.new next.old next.new) }
    ensures answer { IfOk result (λ ended. ended ≡ nat_lt (length (remaining control.old)) count) }
{
    let ended = control.advance(next, count)?;
    Ok(ended)
}

/// How many elements the windows of activations have, from one of them on, as far as the number goes.
fn elements_from(activations: &[Activation], first: usize) -> u64 {
    let mut elements: u64 = 0;
    let (_, last) = activations.split_at(first.min(activations.len()));
    for activation in last {
        for claim in activation.claims.as_slice() {
            elements = elements.saturating_add(u64::from(claim.horizon));
        }
    }
    elements
}
