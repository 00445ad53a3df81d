//! Running a batch.

ghost use Rattle.std.specs.Prelude.{◌≡◌, ◌≤◌, ◌<◌, [], IfOk, IfSome, OnOk, None, Some, length, replicate};
ghost use Rattle.stream_match_layouts.specs.Layout.{IsLayout};
ghost use Rattle.epoch_run_batches.specs.Meant.{AreEndsMeant, HoldMeant};
ghost use Rattle.epoch_run_batches.specs.Outcome.{IsMeant};
ghost use Rattle.epoch_run_batches.specs.Workload.{IsWorkload};

use crate::activation::{Buffers, run_one};
use crate::batch_outcome::BatchOutcome;
use crate::ended::Ended;
use crate::local_bodies::LocalBodies;
use crate::slot::Meaning;
use crate::sources::Sources;
use crate::streams::Streams;
use flow_core_laws::Elem;
use os_io::{List, Memory};
use std::alloc::Global;
use stream_match_layouts::{Layout, Span};

/// What batches are made of: the positions of all activations, and their bodies.
#[derive(Clone, Copy)]
pub struct Workload<'r, B> {
    /// The number of the first activation whose body is at hand: those before it have ended, and aren't run.
    pub first: u32,
    pub layout: &'r Layout,
    pub bodies: &'r B,
}

/// Runs the activations of a batch one after the other. Each reads what earlier ones of the batch wrote and what the sources have; of the slots
/// it looks in those of the batches `from`. An activation that doesn't find all that it reads is left out, as is a number that no activation has,
/// or one whose body isn't at hand.
pub fn run_batch<J: Meaning, B: LocalBodies>(
    alloc: Global,
    workload: &Workload<'_, B>,
    sources: &Sources<'_, J>,
    numbers: &[u32],
    from: &[u32],
    buffers: &mut Buffers,
    scratch: &mut B::Scratch,
) -> Result<BatchOutcome, Memory>
    requires workload { IsWorkload J.run workload.now.first workload.now.layout.now (B.outcome workload.now.bodies.now) (B.takes workload.now.bodies.now) }
    requires fitting { B.fits workload.now.bodies.now scratch.old }
    ensures meant { IfOk result (IsMeant J.run) }
    ensures fitting { B.fits workload.now.bodies.now scratch.new }
{
    let firsts = firsts_of(alloc, workload.layout, numbers)?;
    let mut own = Streams::empty(alloc, firsts)?;
    let mut ended = List::with_capacity(alloc, numbers.len())?;
    run_numbers(
        workload, sources, numbers, from, &mut own, &mut ended, buffers, scratch,
    )?;
    Ok(BatchOutcome { ended, wrote: own })
}

/// Runs activations one after the other. After `Memory` the streams are to be given up.
fn run_numbers<J: Meaning, B: LocalBodies>(
    workload: &Workload<'_, B>,
    sources: &Sources<'_, J>,
    numbers: &[u32],
    from: &[u32],
    own: &mut Streams,
    ended: &mut List<Ended>,
    buffers: &mut Buffers,
    scratch: &mut B::Scratch,
) -> Result<(), Memory>
    requires as_many { length own.old.firsts ≡ length own.old.elements }
    requires meant { HoldMeant J.run own.old }
    requires ends { AreEndsMeant J.run ended.old }
    requires workload { IsWorkload J.run workload.now.first workload.now.layout.now (B.outcome workload.now.bodies.now) (B.takes workload.now.bodies.now) }
    requires fitting { B.fits workload.now.bodies.now scratch.old }
    ensures as_many { OnOk result (length own.new.firsts ≡ length own.new.elements) }
    ensures meant { OnOk result (HoldMeant J.run own.new) }
    ensures ends { OnOk result (AreEndsMeant J.run ended.new) }
    ensures fitting { B.fits workload.now.bodies.now scratch.new }
{
    for number in numbers {
        run_number(
            workload, sources, *number, from, own, ended, buffers, scratch,
        )?;
    }
    Ok(())
}

/// Runs an activation, if there is one of this number, its body is at hand, and it finds what it reads.
fn run_number<J: Meaning, B: LocalBodies>(
    workload: &Workload<'_, B>,
    sources: &Sources<'_, J>,
    number: u32,
    from: &[u32],
    own: &mut Streams,
    ended: &mut List<Ended>,
    buffers: &mut Buffers,
    scratch: &mut B::Scratch,
) -> Result<(), Memory>
    requires as_many { length own.old.firsts ≡ length own.old.elements }
    requires meant { HoldMeant J.run own.old }
    requires ends { AreEndsMeant J.run ended.old }
    requires workload { IsWorkload J.run workload.now.first workload.now.layout.now (B.outcome workload.now.bodies.now) (B.takes workload.now.bodies.now) }
    requires fitting { B.fits workload.now.bodies.now scratch.old }
    ensures as_many { OnOk result (length own.new.firsts ≡ length own.new.elements) }
    ensures meant { OnOk result (HoldMeant J.run own.new) }
    ensures ends { OnOk result (AreEndsMeant J.run ended.new) }
    ensures fitting { B.fits workload.now.bodies.now scratch.new }
{
    if number < workload.first {
        return Ok(());
    }
    if number as usize >= workload.layout.frames() {
        return Ok(());
    }
    let spans = workload.layout.spans_of(number as usize);
    let end = run_one(
        workload, sources, number, spans, from, own, buffers, scratch,
    )?;
    if let Some(end) = end {
        ended.push(Ended { number, end })?;
    }
    Ok(())
}

impl Streams {
    /// Streams without elements, each from a position on.
    pub(crate) fn empty(alloc: Global, firsts: List<u64>) -> Result<Streams, Memory>
        ensures elements { IfOk result (λ streams. streams.elements ≡ replicate (length firsts) []) }
        ensures firsts { IfOk result (λ streams. streams.firsts ≡ firsts) }
    {
        let mut elements: List<List<Option<Elem>>> = List::with_capacity(alloc, firsts.len())?;
        for _ in 0..firsts.len() {
            elements.push(List::new(alloc))?;
        }
        Ok(Streams { elements, firsts })
    }
}

/// For each stream the first position that activations write, or the last one that there is.
fn firsts_of(alloc: Global, layout: &Layout, numbers: &[u32]) -> Result<List<u64>, Memory>
    requires { IsLayout layout.now }
    ensures { IfOk result (λ firsts. length firsts ≡ length layout.now.writers) }
{
    let mut firsts = List::filled(alloc, u64::MAX, layout.writers.len())?;
    for number in numbers {
        let number = *number as usize;
        if number < layout.frames() {
            lower_to(&mut firsts, layout.spans_of(number));
        }
    }
    Ok(firsts)
}

/// Lowers positions to the first ones that spans write.
fn lower_to(firsts: &mut List<u64>, spans: &[Span])
    ensures { length firsts.new ≡ length firsts.old }
{
    for span in spans {
        lower(firsts, span);
    }
}

fn lower(firsts: &mut List<u64>, span: &Span)
    ensures { length firsts.new ≡ length firsts.old }
{
    let stream = span.stream as usize;
    if span.write && stream < firsts.len() {
        let first = firsts.as_slice()[stream];
        firsts.as_mut_slice()[stream] = first.min(span.first);
    }
}
