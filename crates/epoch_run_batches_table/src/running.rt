//! Running batches by several workers.

ghost use Rattle.std.specs.Prelude.{◌≡◌, ◌≤◌, IfOk, length};
ghost use Rattle.flow_core_epochs.specs.Epoch.{ServesAll};
ghost use Rattle.flow_core_laws.specs.Limits.{workers_limit};
ghost use Rattle.stream_match_layouts.specs.Layout.{IsLayout, IsLayoutOf};
ghost use Rattle.epoch_run_batches.specs.Meant.{HoldMeant};
ghost use Rattle.epoch_run_batches.specs.Outcome.{AreAllMeant, IsMeant};
ghost use Rattle.epoch_run_batches.specs.Workload.{IsWorkload};
ghost use Rattle.epoch_run_batches_table.specs.Running.{run_of};

use crate::batch::Batch;
use crate::bodies::BatchBodies;
use crate::tokens::plan_of;
use epoch_run_batches::{BatchOutcome, Meaning, SlotContent, Streams, Workload};
use flow_core_laws::{Activation, Bodies};
use os_io::{List, Memory};
use std::alloc::Global;
use std::marker::Brand;
use std::sync::OnceLock;
use std::thread::Threads;
use stream_match_layouts::Layout;
use task_workers::{Gate, execute};

/// Runs batches of activations on `workers` workers, 1 to 64: each once those are done in whose slots it looks. It gives what each batch came to
/// that filled its slot. Those are left out that wait for a batch which isn't there or for one another, and those for which memory is wanted.
///
/// `before` is what the streams held before. The gate is called with the number of the worker and that of the batch before each batch.
pub fn run_batches<R: Threads + Sync, B: Bodies, G: Gate>(
    rt: &R,
    alloc: Global,
    activations: &[Activation],
    layout: &Layout,
    bodies: &B,
    input: &[u8],
    before: &Streams,
    batches: &[Batch],
    workers: u32,
    gate: &G,
) -> Result<List<BatchOutcome>, Memory>
    requires layout { IsLayout layout.now }
    requires laid { IsLayoutOf layout.now activations.now }
    requires served { ServesAll activations.now (B.outcome bodies.now) (B.takes bodies.now) }
    requires as_many { length before.now.firsts ≡ length before.now.elements }
    requires before { HoldMeant (run_of activations.now input.now (B.outcome bodies.now)) before.now }
    requires workers { (1 ≤ workers) × (workers ≤ workers_limit) }
    ensures { IfOk result (AreAllMeant (run_of activations.now input.now (B.outcome bodies.now))) }
{
    run_given::<Brand, R, B, G>(
        rt,
        alloc,
        activations,
        layout,
        bodies,
        input,
        before,
        batches,
        workers,
        gate,
    )
}

/// Runs batches of these activations, which are those of the run that is picked.
fn run_given<J: Meaning + Send + Sync, R: Threads + Sync, B: Bodies, G: Gate>(
    rt: &R,
    alloc: Global,
    activations: &[Activation],
    layout: &Layout,
    bodies: &B,
    input: &[u8],
    before: &Streams,
    batches: &[Batch],
    workers: u32,
    gate: &G,
) -> Result<List<BatchOutcome>, Memory>
    requires run { J.run ≡ run_of activations.now input.now (B.outcome bodies.now) }
    requires layout { IsLayout layout.now }
    requires laid { IsLayoutOf layout.now activations.now }
    requires served { ServesAll activations.now (B.outcome bodies.now) (B.takes bodies.now) }
    requires as_many { length before.now.firsts ≡ length before.now.elements }
    requires before { HoldMeant J.run before.now }
    requires workers { (1 ≤ workers) × (workers ≤ workers_limit) }
    ensures { IfOk result (AreAllMeant J.run) }
{
    let _ = activations;
    let workload = Workload {
        first: 0,
        layout,
        bodies,
    };
    run_batches_of::<J, R, B, G>(rt, alloc, &workload, input, before, batches, workers, gate)
}

/// Runs batches of activations of the run that is picked, as `run_batches` does. Activations whose bodies aren't at hand are left out.
pub fn run_batches_of<J: Meaning + Send + Sync, R: Threads + Sync, B: Bodies, G: Gate>(
    rt: &R,
    alloc: Global,
    workload: &Workload<'_, B>,
    input: &[u8],
    before: &Streams,
    batches: &[Batch],
    workers: u32,
    gate: &G,
) -> Result<List<BatchOutcome>, Memory>
    requires workload { IsWorkload J.run workload.now.first workload.now.layout.now (B.outcome workload.now.bodies.now) (B.takes workload.now.bodies.now) }
    requires input { input.now ≡ J.run.input }
    requires as_many { length before.now.firsts ≡ length before.now.elements }
    requires before { HoldMeant J.run before.now }
    requires workers { (1 ≤ workers) × (workers ≤ workers_limit) }
    ensures { IfOk result (AreAllMeant J.run) }
{
    let found = plan_of(alloc, batches)?;
    let Some(plan) = found else {
        return Ok(List::new(alloc));
    };
    let slots: Vec<OnceLock<SlotContent<J>>> = empty_slots(alloc, batches.len())?;
    let bodies = BatchBodies {
        alloc,
        plan: &plan,
        first: workload.first,
        layout: workload.layout,
        bodies: workload.bodies,
        input,
        before,
        batches,
        slots: slots.as_slice(),
    };
    execute(rt, alloc, &plan, &bodies, workers, gate)?;
    outcomes_in(alloc, slots)
}

/// As many empty slots.
fn empty_slots<J: Meaning>(
    alloc: Global,
    count: usize,
) -> Result<Vec<OnceLock<SlotContent<J>>>, Memory> {
    let mut slots = Vec::with_capacity(alloc, count)?;
    for _ in 0..count {
        slots.push(OnceLock::new())?;
    }
    Ok(slots)
}

/// What full slots hold.
fn outcomes_in<J: Meaning>(
    alloc: Global,
    slots: Vec<OnceLock<SlotContent<J>>>,
) -> Result<List<BatchOutcome>, Memory>
    ensures { IfOk result (AreAllMeant J.run) }
{
    let mut outcomes = List::with_capacity(alloc, slots.len())?;
    for slot in slots {
        if let Some(content) = slot.into_inner() {
            outcomes.push(outcome_in(content))?;
        }
    }
    Ok(outcomes)
}

/// What a batch came to, from its slot.
fn outcome_in<J: Meaning>(content: SlotContent<J>) -> BatchOutcome
    ensures { IsMeant J.run result }
{
    let SlotContent { outcome, of: _ } = content;
    outcome
}
