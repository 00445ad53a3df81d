ghost use Rattle.std.specs.Prelude.{◌≡◌, ◌≤◌, IfOk, OnOk, false, true, length, take};
ghost use Rattle.epoch_run_batches.specs.Workload.{IsWorkload};
ghost use Rattle.epoch_run_stretch.specs.Gathered.{HoldAll, IsCleared};
ghost use Rattle.flow_core_laws.specs.Limits.{workers_limit};
ghost use Rattle.stream_match_layouts.specs.Spans.{frame_count};

use crate::held::gather;
use epoch_run_batches::{Meaning, Streams, Workload};
use epoch_run_batches_table::{Batch, run_batches_of};
use flow_core_laws::{Bodies, Elem, TaskEnd};
use os_io::{List, Memory};
use std::alloc::Global;
use std::thread::Threads;
use task_workers::Gate;

/// Runs the activations of a layout after those that ran, in batches on `workers` workers, 1 to 64, and puts what they came to after what is
/// held: the ends so far, and what the streams hold. It answers whether all of them ran; where not, all of them are still to run. After `Memory` what is
/// held may be anything, and the caller gives the run up.
///
/// The gate is called with the number of a worker and that of a batch before each batch.
pub fn run_stretch<J: Meaning + Send + Sync, R: Threads + Sync, B: Bodies, G: Gate>(
    rt: &R,
    alloc: Global,
    workload: &Workload<'_, B>,
    input: &[u8],
    batches: &[Batch],
    workers: u32,
    gate: &G,
    ends: &mut List<Option<TaskEnd>>,
    streams: &mut Streams,
) -> Result<bool, Memory>
    requires workload { IsWorkload J.run workload.now.first workload.now.layout.now (B.outcome workload.now.bodies.now) (B.takes workload.now.bodies.now) }
    requires input { input.now ≡ J.run.input }
    requires workers { (1 ≤ workers) × (workers ≤ workers_limit) }
    requires within { length ends.old ≤ frame_count workload.now.layout.now }
    requires elements { length streams.old.elements ≡ length workload.now.layout.now.writers }
    requires held { HoldAll (take (length ends.old) J.run.activations) J.run.input J.run.body ends.old streams.old.elements streams.old.firsts }
    ensures firsts { OnOk result (streams.new.firsts ≡ streams.old.firsts) }
    ensures elements { OnOk result (length streams.new.elements ≡ length streams.old.elements) }
    ensures count { IfOk result (λ all. all ≡ true → length ends.new ≡ frame_count workload.now.layout.now) }
    ensures all { IfOk result (λ all. all ≡ true → HoldAll J.run.activations J.run.input J.run.body ends.new streams.new.elements streams.new.firsts) }
    ensures no_ends { IfOk result (λ all. all ≡ false → ends.new ≡ ends.old) }
    ensures none { IfOk result (λ all. all ≡ false
        → HoldAll (take (length ends.old) J.run.activations) J.run.input J.run.body ends.new streams.new.elements streams.new.firsts) }
{
    clear_input(alloc, &mut streams.elements);
    let outcomes = run_batches_of::<J, R, B, G>(
        rt, alloc, workload, input, streams, batches, workers, gate,
    )?;
    let all = gather(
        alloc,
        workload.layout,
        outcomes.as_slice(),
        ends,
        streams.firsts.as_slice(),
        &mut streams.elements,
    )?;
    Ok(all)
}

/// Gives up what lists of streams hold of the input, which has its bytes elsewhere.
fn clear_input(alloc: Global, elements: &mut List<List<Option<Elem>>>)
    ensures { IsCleared elements.old elements.new }
{
    if elements.len() > 0 {
        elements.as_mut_slice()[0] = List::new(alloc);
    }
}
