//! Running an activation of a batch.

ghost use Rattle.std.specs.Prelude.{◌≡◌, ◌≤◌, ◌<◌, ◌^◌, IfOk, IfSome, OnOk, None, Some, length, sum_by};
ghost use Rattle.flow_core_laws.specs.declared.task_end.TaskEnd.TheVariants.{Done};
ghost use Rattle.stream_match_layouts.specs.Spans.{write_count};
ghost use Rattle.stream_match_layouts.specs.declared.span.Span.{Span};
ghost use Rattle.epoch_run_batches.specs.Meant.{HoldMeant, end_meant};
ghost use Rattle.epoch_run_batches.specs.Reads.{AreRead, covered_by};
ghost use Rattle.epoch_run_batches.specs.Workload.{AreSpansOf, HasOutcome, IsWorkload};

use crate::batch::Workload;
use crate::inputs::Inputs;
use crate::local_bodies::LocalBodies;
use crate::slot::Meaning;
use crate::sources::Sources;
use crate::streams::Streams;
use flow_core_laws::TaskEnd;
use os_io::Memory;
use std::alloc::Global;
use stream_match_layouts::Span;

/// What an activation reads, and what it writes.
#[derive(Drop)]
pub struct Buffers {
    pub inputs: Inputs,
    pub outputs: Vec<i32>,
}

impl Buffers {
    /// Buffers before anything is read.
    pub fn new(alloc: Global) -> Buffers {
        Buffers {
            inputs: Inputs::new(alloc),
            outputs: Vec::new(alloc),
        }
    }
}

/// Runs an activation, if all that it reads is there, and writes what it came to. After `Memory` the streams are to be given up.
pub(crate) fn run_one<J: Meaning, B: LocalBodies>(
    workload: &Workload<'_, B>,
    sources: &Sources<'_, J>,
    number: u32,
    spans: &[Span],
    from: &[u32],
    own: &mut Streams,
    buffers: &mut Buffers,
    scratch: &mut B::Scratch,
) -> Result<Option<TaskEnd>, Memory>
    requires workload { IsWorkload J.run workload.now.first workload.now.layout.now (B.outcome workload.now.bodies.now) (B.takes workload.now.bodies.now) }
    requires at_hand { workload.now.first ≤ number }
    requires spans { AreSpansOf J.run number spans.now }
    requires as_many { length own.old.firsts ≡ length own.old.elements }
    requires meant { HoldMeant J.run own.old }
    requires fitting { B.fits workload.now.bodies.now scratch.old }
    ensures as_many { OnOk result (length own.new.firsts ≡ length own.new.elements) }
    ensures meant { OnOk result (HoldMeant J.run own.new) }
    ensures end { IfOk result (λ o. IfSome o (λ end. end_meant J.run number ≡ Some end)) }
    ensures fitting { B.fits workload.now.bodies.now scratch.new }
{
    let there = sources.read_all(own, from, spans, &mut buffers.inputs)?;
    if !there {
        return Ok(None);
    }
    let end = end_of::<J, B>(
        workload,
        number,
        spans,
        &buffers.inputs,
        &mut buffers.outputs,
        scratch,
    )?;
    let root = end.root(number);
    own.write_all(spans, root, buffers.outputs.as_slice())?;
    Ok(Some(end))
}

/// How an activation ends whose inputs were read: poisoned, where one of them is poison, and else as its body does.
fn end_of<J: Meaning, B: LocalBodies>(
    workload: &Workload<'_, B>,
    number: u32,
    spans: &[Span],
    inputs: &Inputs,
    outputs: &mut Vec<i32>,
    scratch: &mut B::Scratch,
) -> Result<TaskEnd, Memory>
    requires workload { IsWorkload J.run workload.now.first workload.now.layout.now (B.outcome workload.now.bodies.now) (B.takes workload.now.bodies.now) }
    requires at_hand { workload.now.first ≤ number }
    requires spans { AreSpansOf J.run number spans.now }
    requires read { AreRead (covered_by J.run spans.now) inputs.now }
    requires fitting { B.fits workload.now.bodies.now scratch.old }
    ensures come { IfOk result (λ end. HasOutcome J.run number end outputs.new.items) }
    ensures room { IfOk result (λ end. end ≡ Done → length outputs.new.items ≡ sum_by write_count spans.now) }
    ensures fitting { B.fits workload.now.bodies.now scratch.new }
{
    if let Some(root) = inputs.root {
        return Ok(TaskEnd::Poisoned { root });
    }
    let count = written_count(spans);
    fit(outputs, count)?;
    let end = workload
        .bodies
        .run(number, inputs.values(), outputs.as_mut_slice(), scratch);
    Ok(end)
}

/// How many elements spans write.
fn written_count(spans: &[Span]) -> usize
    requires { sum_by (λ (s : Span). s.count) spans.now < 2 ^ 32 }
    ensures { result ≡ sum_by write_count spans.now }
{
    let mut written = 0;
    for span in spans {
        if span.write {
            written += span.count;
        }
    }
    written as usize
}

/// Gives a buffer `count` places, whatever they hold.
fn fit(into: &mut Vec<i32>, count: usize) -> Result<(), Memory>
    ensures { OnOk result (length into.new.items ≡ count) }
{
    if into.len() == count {
        return Ok(());
    }
    into.resize(count, 0)?;
    Ok(())
}
