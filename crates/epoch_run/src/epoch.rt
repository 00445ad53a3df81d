ghost use Rattle.std.specs.Prelude.{◌≡◌, [], ◌+◌, ◌^◌, ◌<◌, ◌≤◌, All, IfOk, OnOk, length, map, nat_lt, slice_index};
ghost use Rattle.std.specs.List.{flat_map};
ghost use Rattle.flow_core_laws.specs.Limits.{workers_limit};
ghost use Rattle.flow_core_laws.specs.IsSound.{IsSound};
ghost use Rattle.flow_core_laws.specs.Outcome.{ends_of};
ghost use Rattle.flow_core_laws.specs.Plans.{sink_elements};
ghost use Rattle.flow_core_laws.specs.Serves.{Serves};
ghost use Rattle.flow_core_epochs.specs.Epoch.{LeaveOutWaiting, StandsForEpoch, epoch_meaning, open_in};
ghost use Rattle.os_code.specs.Codes.{parts_of};
ghost use Rattle.stream_match.specs.Kept.{kept_of};
ghost use Rattle.stream_match.specs.Stretch.{stretch_places};
ghost use Rattle.stream_match.specs.declared.stretch.Stretch.{Stretch};
ghost use Rattle.stream_match_layouts.specs.Layout.{IsLayout};
ghost use Rattle.stream_match_layouts.specs.Spans.{frame_count};
ghost use Rattle.epoch_run.specs.Bodies.{HaveOpen, all_of};
ghost use Rattle.epoch_run.specs.Held.{IsHeldOf, IsOpenEpoch, listed};

use crate::held::Held;
use crate::open_bodies::OpenBodies;
use crate::pace::Pace;
use crate::plan::run_plan;
use crate::unended::with_new;
use epoch_run_bodies::CountedBodies;
use epoch_run_bodies::laws::{bodies_serve, later_activations_change_nothing};
use epoch_run_ready::{newest_wait, ready_frames, ready_since};
use flow_core_epochs::FrameBodies;
use flow_core_epochs::laws::run_in_epochs;
use flow_core_laws::{Bodies, Ends, Plan};
use os_io::{List, Memory};
use std::alloc::Global;
use std::mem;
use std::sync::atomic::{AtomicU64, Ordering};
use std::thread::Threads;
use stream_match::{Layout, ReadyPlan, build_ready};
use task_vm::Scratch;
use task_workers::Gate;

/// Runs an epoch by `workers` workers: the activations of a layout that have no end yet, over what was kept for
/// them. Where none is new, nothing is run. After `Memory` what is held may be anything, and the caller gives the run
/// up.
pub(crate) fn run_epoch<R: Threads + Sync, G: Gate>(
    rt: &R,
    alloc: Global,
    bodies: &OpenBodies<'_>,
    layout: &Layout,
    input: &[u8],
    workers: u32,
    gate: &G,
    held: &mut Held,
) -> Result<(), Memory>
    requires workers { (1 ≤ workers) × (workers ≤ workers_limit) }
    requires open { IsOpenEpoch bodies.now.code.now (all_of bodies.now) bodies.now.budgets.task layout.now input.now held.old }
    requires there { HaveOpen bodies.now held.old.ends.ends }
    ensures { OnOk result (IsHeldOf (parts_of bodies.now.code.now) (all_of bodies.now) input.now bodies.now.budgets.task held.new) }
{
    if has_new(bodies, held) {
        run_open(rt, alloc, bodies, layout, input, workers, gate, held)
    } else {
        Ok(())
    }
}

/// Whether some of the activations are new.
fn has_new(bodies: &OpenBodies<'_>, held: &Held) -> bool
    ensures { result ≡ nat_lt (length held.now.ends.ends) bodies.now.count }
{
    held.ends.ends.len() < bodies.count as usize
}

/// Runs those of the activations without an end that may run by now.
fn run_open<R: Threads + Sync, G: Gate>(
    rt: &R,
    alloc: Global,
    bodies: &OpenBodies<'_>,
    layout: &Layout,
    input: &[u8],
    workers: u32,
    gate: &G,
    held: &mut Held,
) -> Result<(), Memory>
    requires workers { (1 ≤ workers) × (workers ≤ workers_limit) }
    requires open { IsOpenEpoch bodies.now.code.now (all_of bodies.now) bodies.now.budgets.task layout.now input.now held.old }
    requires there { HaveOpen bodies.now held.old.ends.ends }
    ensures { OnOk result (IsHeldOf (parts_of bodies.now.code.now) (all_of bodies.now) input.now bodies.now.budgets.task held.new) }
{
    let readers = open_activations(alloc, layout, held)?;
    let frames = frames_of(alloc, bodies, layout, input, readers.as_slice(), held)?;
    run_these(
        rt,
        alloc,
        bodies,
        layout,
        input,
        workers,
        gate,
        readers,
        frames.as_slice(),
        held,
    )
}

/// The activations of a layout that have no end yet. The list of those that had none before is taken for it.
fn open_activations(alloc: Global, layout: &Layout, held: &mut Held) -> Result<List<u32>, Memory>
    requires layout { IsLayout layout.now }
    requires listed { held.old.without_end ≡ open_in held.old.ends.ends (length held.old.ends.ends) }
    requires more { length held.old.ends.ends ≤ frame_count layout.now }
    ensures readers { IfOk result (λ readers. readers ≡ open_in held.old.ends.ends (frame_count layout.now)) }
    ensures same { OnOk result (held.new ≡ record held.old { without_end = [] }) }
{
    let listed = mem::replace(&mut held.without_end, List::new(alloc));
    let readers = with_new(listed, held.ends.ends.as_slice(), layout.frames() as u32)?;
    Ok(readers)
}

/// The frames of an epoch: of the activations that have no end yet those that aren't found to wait, and none where all new ones are. Those of
/// earlier epochs that nothing new can reach wait as they did, also for one another in a circle.
fn frames_of(
    alloc: Global,
    bodies: &OpenBodies<'_>,
    layout: &Layout,
    input: &[u8],
    readers: &[u32],
    held: &Held,
) -> Result<List<u32>, Memory>
    requires open { IsOpenEpoch bodies.now.code.now (all_of bodies.now) bodies.now.budgets.task layout.now input.now (listed held.now) }
    requires readers { readers.now ≡ open_in held.now.ends.ends (frame_count layout.now) }
    ensures { IfOk result (λ frames. LeaveOutWaiting (all_of bodies.now) input.now held.now.ends.ends frames) }
{
    bodies_serve();
    later_activations_change_nothing();
    let wait = newest_wait(alloc, layout, readers, held.ends.ends.len())?;
    if wait {
        return Ok(List::new(alloc));
    }
    let frames = ready_since(alloc, layout, readers, held.ends.ends.len())?;
    Ok(frames)
}

/// Whether none of the activations of a layout is found to wait, where none has an end.
pub(crate) fn none_waits(alloc: Global, layout: &Layout) -> Result<bool, Memory>
    requires { IsLayout layout.now }
{
    let all = with_new(List::new(alloc), &[], layout.frames() as u32)?;
    let frames = ready_frames(alloc, layout, all.as_slice())?;
    Ok(frames.len() == layout.frames())
}

/// Runs some of these activations, which are those that have no end yet: what is left out of the frames waits.
fn run_these<R: Threads + Sync, G: Gate>(
    rt: &R,
    alloc: Global,
    bodies: &OpenBodies<'_>,
    layout: &Layout,
    input: &[u8],
    workers: u32,
    gate: &G,
    readers: List<u32>,
    frames: &[u32],
    held: &mut Held,
) -> Result<(), Memory>
    requires workers { (1 ≤ workers) × (workers ≤ workers_limit) }
    requires open { IsOpenEpoch bodies.now.code.now (all_of bodies.now) bodies.now.budgets.task layout.now input.now (listed held.old) }
    requires there { HaveOpen bodies.now held.old.ends.ends }
    requires readers { readers ≡ open_in held.old.ends.ends (frame_count layout.now) }
    requires frames { LeaveOutWaiting (all_of bodies.now) input.now held.old.ends.ends frames.now }
    ensures { OnOk result (IsHeldOf (parts_of bodies.now.code.now) (all_of bodies.now) input.now bodies.now.budgets.task held.new) }
{
    run_in_epochs();
    bodies_serve();
    later_activations_change_nothing();
    let epoch = plan_these(
        alloc,
        bodies,
        layout,
        input,
        readers.as_slice(),
        frames,
        held,
    )?;
    let ends = run_frames(
        rt,
        alloc,
        epoch.plan,
        frames,
        bodies,
        workers,
        gate,
        &mut held.pace,
    )?;
    held.take(
        alloc,
        layout,
        readers,
        frames,
        epoch.leaves.as_slice(),
        &ends,
    )?;
    Ok(())
}

/// The plan of an epoch with these frames.
fn plan_these(
    alloc: Global,
    bodies: &OpenBodies<'_>,
    layout: &Layout,
    input: &[u8],
    readers: &[u32],
    frames: &[u32],
    held: &Held,
) -> Result<ReadyPlan, Memory>
    requires open { IsOpenEpoch bodies.now.code.now (all_of bodies.now) bodies.now.budgets.task layout.now input.now (listed held.now) }
    requires readers { readers.now ≡ open_in held.now.ends.ends (frame_count layout.now) }
    requires frames { LeaveOutWaiting (all_of bodies.now) input.now held.now.ends.ends frames.now }
    ensures sound { IfOk result (λ epoch. IsSound epoch.plan) }
    ensures stands { IfOk result (λ epoch. StandsForEpoch epoch.plan (all_of bodies.now) input.now readers.now frames.now (map kept_of held.now.kept.items)
        (flat_map stretch_places epoch.leaves)) }
    ensures small { IfOk result (λ epoch. All (λ (s : Stretch). s.first + s.count < 2 ^ 64) epoch.leaves) }
{
    run_in_epochs();
    later_activations_change_nothing();
    let epoch = build_ready(alloc, layout, readers, frames, held.kept.as_slice(), input)?;
    Ok(epoch)
}

/// Runs the plan of an epoch with these frames, and gives up its cells before what it came to is taken. Where several workers run it,
/// it tells how long the bodies were.
fn run_frames<R: Threads + Sync, B: Bodies<Scratch = Scratch>, G: Gate>(
    rt: &R,
    alloc: Global,
    plan: Plan,
    frames: &[u32],
    bodies: &B,
    workers: u32,
    gate: &G,
    pace: &mut Pace,
) -> Result<Ends, Memory>
    requires workers { (1 ≤ workers) × (workers ≤ workers_limit) }
    requires sound { IsSound plan }
    requires served { Serves plan (λ f. B.outcome bodies.now (slice_index frames.now f))
        (λ f inputs outputs. (f < length frames.now) × B.takes bodies.now (slice_index frames.now f) inputs outputs) }
    ensures ends { IfOk result (λ e. e.ends ≡ ends_of (epoch_meaning plan frames.now (B.outcome bodies.now))) }
    ensures output { IfOk result (λ e. e.output ≡ sink_elements plan (epoch_meaning plan frames.now (B.outcome bodies.now))) }
{
    if workers == 1 {
        return run_plan(
            rt,
            alloc,
            &plan,
            &FrameBodies { bodies, frames },
            1,
            gate,
            *pace,
        );
    }
    let steps = AtomicU64::new(0);
    let bodies = CountedBodies {
        bodies,
        steps: &steps,
    };
    let bodies = FrameBodies {
        bodies: &bodies,
        frames,
    };
    let ends = run_plan(rt, alloc, &plan, &bodies, workers, gate, *pace)?;
    *pace = pace.behind(&plan, steps.load(Ordering::Relaxed));
    Ok(ends)
}
