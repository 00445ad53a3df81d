//! Cutting a stretch of activations into batches.

ghost use Rattle.std.specs.Prelude.{◌<◌, length};
ghost use Rattle.stream_match_layouts.specs.Layout.{IsLayout};

use epoch_run_batches_table::Batch;
use os_io::{List, Memory};
use std::alloc::Global;
use stream_match_layouts::{Layout, Span};

/// How a stretch is cut: `size` activations are a batch, from the activation `first` on, in control order.
#[derive(Clone, Copy, Debug)]
pub struct Cut {
    pub first: u32,
    pub size: u32,
}

impl Cut {
    /// The batches of a layout's activations from the first one of the stretch on. Each batch looks in the slots of those batches before it
    /// whose activations write what its own read. Any cut is right: what a batch doesn't find is left out of it.
    pub fn batches(self, alloc: Global, layout: &Layout) -> Result<List<Batch>, Memory>
        requires { IsLayout layout.now }
    {
        let activations = (layout.frames() as u32).saturating_sub(self.first);
        let mut batches = List::new(alloc);
        for number in 0..activations.div_ceil(self.size.max(1)) {
            batches.push(self.batch(alloc, layout, number)?)?;
        }
        Ok(batches)
    }

    /// The batch of a number.
    fn batch(self, alloc: Global, layout: &Layout, number: u32) -> Result<Batch, Memory>
        requires { IsLayout layout.now }
    {
        let begin = self
            .first
            .saturating_add(number.saturating_mul(self.size.max(1)));
        let end = begin
            .saturating_add(self.size.max(1))
            .min(layout.frames() as u32);
        let own = first_writes(alloc, layout, begin, end)?;
        let mut numbers = List::new(alloc);
        let mut from = List::new(alloc);
        for activation in begin..end {
            numbers.push(activation)?;
            self.add_sources(&mut from, layout, own.as_slice(), activation, number)?;
        }
        Ok(Batch { numbers, from })
    }

    /// Adds the batches before the one of a number that write what an activation reads. `own` has for each stream the first position that the batch
    /// itself writes: no earlier batch writes from there on.
    fn add_sources(
        self,
        from: &mut List<u32>,
        layout: &Layout,
        own: &[u64],
        activation: u32,
        number: u32,
    ) -> Result<(), Memory>
        requires { IsLayout layout.now }
    {
        if activation as usize >= layout.frames() {
            return Ok(());
        }
        for span in layout.spans_of(activation as usize) {
            if may_be_earlier(own, span) {
                self.add_sources_of(from, layout, span, number)?;
            }
        }
        Ok(())
    }

    /// Adds the batches before the one of a number that write what a span covers.
    fn add_sources_of(
        self,
        from: &mut List<u32>,
        layout: &Layout,
        span: &Span,
        number: u32,
    ) -> Result<(), Memory>
        requires { IsLayout layout.now }
    {
        if span.stream as usize >= layout.writers.len() {
            return Ok(());
        }
        let end = span.first.saturating_add(u64::from(span.count));
        let mut position = span.first;
        for _ in 0..span.count {
            if position >= end {
                return Ok(());
            }
            let Some(writer) = writer_at(layout, span.stream, position) else {
                return Ok(());
            };
            self.add_batch_of(from, u32::from(writer.frame), number)?;
            position = writer.first.saturating_add(u64::from(writer.count));
        }
        Ok(())
    }

    /// Adds the batch of an activation, if it is of the stretch and before the one of a number.
    fn add_batch_of(
        self,
        from: &mut List<u32>,
        activation: u32,
        number: u32,
    ) -> Result<(), Memory> {
        if activation < self.first {
            return Ok(());
        }
        let batch = (activation - self.first) / self.size.max(1);
        if batch < number && !from.as_slice().contains(&batch) {
            from.push(batch)?;
        }
        Ok(())
    }
}

/// For each stream the first position that activations from one to before another write, or the last one that there is.
fn first_writes(alloc: Global, layout: &Layout, begin: u32, end: u32) -> Result<List<u64>, Memory>
    requires { IsLayout layout.now }
{
    let mut firsts = List::filled(alloc, u64::MAX, layout.writers.len())?;
    for activation in begin..end {
        if (activation as usize) < layout.frames() {
            lower_to(&mut firsts, layout.spans_of(activation as usize));
        }
    }
    Ok(firsts)
}

/// Lowers positions to the first ones that spans write.
fn lower_to(firsts: &mut List<u64>, spans: &[Span]) {
    for span in spans {
        let stream = span.stream as usize;
        if span.write && stream < firsts.len() {
            let first = firsts.as_slice()[stream];
            firsts.as_mut_slice()[stream] = first.min(span.first);
        }
    }
}

/// Whether a span reads what activations before a batch may write, where the batch itself writes to the streams from these positions on: nobody
/// writes the input, and what a batch reads after its own first write it wrote itself.
fn may_be_earlier(own: &[u64], span: &Span) -> bool {
    let stream = span.stream as usize;
    !span.write && stream > 0 && stream < own.len() && span.first < own[stream]
}

/// The write span that covers a position of a stream.
fn writer_at(layout: &Layout, stream: u32, position: u64) -> Option<Span>
    requires layout { IsLayout layout.now }
    requires exists { stream < length layout.now.writers }
{
    let number = layout.producer(stream, position)?;
    layout.get_span(number)
}
