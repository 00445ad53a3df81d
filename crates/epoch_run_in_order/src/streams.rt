ghost use Rattle.std.specs.Prelude.{◌≡◌, ◌+◌, ◌<◌, ◌≤◌, ℕ, All, IfOk, IfSome, List, None, OnOk, [], length, map, replicate, true};
ghost use Rattle.std.specs.List.{range_with_len};
ghost use Rattle.flow_core_laws.specs.FirstPosition.{read_cursor};
ghost use Rattle.flow_core_laws.specs.Outcome.{State};
ghost use Rattle.flow_core_laws.specs.Window.{claims_of};
ghost use Rattle.flow_core_laws.specs.declared.activation.Activation.{Activation};
ghost use Rattle.stream_match_layouts.specs.declared.span.Span.{Span};
ghost use Rattle.epoch_run_in_order_laws.specs.InOrder.{HoldElements};
ghost use Rattle.epoch_run_in_order.specs.Streams.{HasPlace};
ghost use Rattle.epoch_run_in_order.specs.Writing.{HaveOutputs, with_span, with_spans};

use crate::giving_up::give_up_on;
use crate::writing::write;
use flow_core_laws::Elem;
use os_io::{List, Memory};
use std::alloc::Global;
use stream_match_layouts::Span;

/// The elements of streams behind activations that all have ended: what these wrote, but for some that lie before the read cursors; in a run apart
/// what the activations of that run wrote.
#[derive(Drop)]
pub struct Streams {
    /// For each stream its elements from a position on: of the output all, in a run apart those that it wrote. The input has none here.
    pub elements: List<List<Option<Elem>>>,
    /// For each stream the position of its first element here.
    pub firsts: List<u64>,
}

impl Streams {
    /// `count` streams without elements.
    pub fn new(alloc: Global, count: u32) -> Result<Streams, Memory>
        ensures elements { IfOk result (λ streams. streams.elements ≡ replicate count []) }
        ensures firsts { IfOk result (λ streams. streams.firsts ≡ replicate count 0) }
    {
        let mut elements = List::with_capacity(alloc, count as usize)?;
        for _ in 0..count {
            elements.push(List::new(alloc))?;
        }
        Ok(Streams {
            elements,
            firsts: List::filled(alloc, 0, count as usize)?,
        })
    }

    /// Streams without elements, each from a position on.
    pub(crate) fn from_positions(alloc: Global, firsts: &[u64]) -> Result<Streams, Memory>
        ensures elements { IfOk result (λ streams. streams.elements ≡ replicate (length firsts.now) []) }
        ensures firsts { IfOk result (λ streams. streams.firsts ≡ firsts.now) }
    {
        let mut elements = List::with_capacity(alloc, firsts.len())?;
        for _ in 0..firsts.len() {
            elements.push(List::new(alloc))?;
        }
        Ok(Streams {
            elements,
            firsts: List::from_slice(alloc, firsts)?,
        })
    }

    /// Where the elements that a span covers begin among those of its stream; none where some of them aren't there.
    pub(crate) fn place_of(&self, span: &Span) -> Option<usize>
        requires exists { span.now.stream < length self.now.elements }
        requires as_many { length self.now.firsts ≡ length self.now.elements }
        ensures { IfSome result (HasPlace self.now span.now) }
    {
        let stream = span.stream as usize;
        let first = self.firsts.as_slice()[stream];
        let held = self.elements.as_slice()[stream].len() as u64;
        if span.first < first {
            return None;
        }
        let at = span.first - first;
        if at > held || u64::from(span.count) > held - at {
            return None;
        }
        Some(at as usize)
    }

    /// Adds what an activation writes through its spans: poison, where there is a root, and else its outputs.
    pub(crate) fn write_all(
        &mut self,
        spans: &[Span],
        root: Option<u32>,
        outputs: &[i32],
    ) -> Result<(), Memory>
        requires exist { All (λ (s : Span). s.stream < length self.old.elements) spans.now }
        requires outputs { HaveOutputs root outputs.now spans.now }
        ensures elements { OnOk result (self.new.elements ≡ with_spans root outputs.now self.old.elements spans.now) }
        ensures firsts { OnOk result (self.new.firsts ≡ self.old.firsts) }
    {
        for span in spans {
            write_through(&mut self.elements, span, root, outputs)?;
        }
        Ok(())
    }

    /// Gives up elements that lie before the read cursors, where they are many for those that stay.
    pub(crate) fn give_up(&mut self, alloc: Global, cursors: &[u64]) -> Result<(), Memory>
        ensures elements { OnOk result (length self.new.elements ≡ length self.old.elements) }
        ensures firsts { OnOk result (length self.new.firsts ≡ length self.old.firsts) }
        ensures held { OnOk result ((activations : List Activation) (input : List ℕ) (state : State)
            → cursors.now ≡ map (λ stream. read_cursor stream (claims_of activations)) (range_with_len 0 (length self.old.elements))
            → HoldElements activations input state self.old.elements self.old.firsts
            → HoldElements activations input state self.new.elements self.new.firsts) }
    {
        for stream in 2..cursors.len() {
            if stream < self.elements.len() && stream < self.firsts.len() {
                self.give_up_of(alloc, stream, cursors[stream])?;
            }
        }
        Ok(())
    }

    /// Gives up what lies before the read cursor of one stream.
    fn give_up_of(&mut self, alloc: Global, stream: usize, cursor: u64) -> Result<(), Memory>
        requires declared { 2 ≤ stream }
        requires exists { stream < length self.old.elements }
        requires has_first { stream < length self.old.firsts }
        ensures elements { OnOk result (length self.new.elements ≡ length self.old.elements) }
        ensures firsts { OnOk result (length self.new.firsts ≡ length self.old.firsts) }
        ensures held { OnOk result ((activations : List Activation) (input : List ℕ) (state : State)
            → cursor ≡ read_cursor stream (claims_of activations)
            → HoldElements activations input state self.old.elements self.old.firsts
            → HoldElements activations input state self.new.elements self.new.firsts) }
    {
        let first = self.firsts.as_slice()[stream];
        let first = give_up_on(
            alloc,
            &mut self.elements.as_mut_slice()[stream],
            first,
            cursor,
        )?;
        self.firsts.as_mut_slice()[stream] = first;
        Ok(())
    }
}

/// Adds what an activation writes through a span to the elements of its stream; nothing, where it reads.
#[inline(always)]
fn write_through(
    elements: &mut List<List<Option<Elem>>>,
    span: &Span,
    root: Option<u32>,
    outputs: &[i32],
) -> Result<(), Memory>
    requires exists { span.now.stream < length elements.old }
    requires outputs { root ≡ None → span.now.write ≡ true → span.now.offset + span.now.count ≤ length outputs.now }
    ensures { OnOk result (elements.new ≡ with_span root outputs.now elements.old span.now) }
{
    if span.write {
        let stream = span.stream as usize;
        write(&mut elements.as_mut_slice()[stream], span, root, outputs)?;
    }
    Ok(())
}
