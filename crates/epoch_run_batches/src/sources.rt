ghost use Rattle.std.specs.Prelude.{◌≡◌, ◌++◌, ◌≤◌, IfOk, IfSome, List, None, Option, Some, length, true};
ghost use Rattle.flow_core_laws.specs.declared.elem.Elem.{Elem};
ghost use Rattle.epoch_run_batches.specs.Meant.{HoldMeant, element_meant};
ghost use Rattle.epoch_run_batches.specs.Reads.{AreFound, AreRead, AreReadTo, covered, covered_by};
ghost use Rattle.epoch_run_batches.specs.declared.inputs.Inputs.{Inputs};

use crate::inputs::Inputs;
use crate::slot::{Meaning, SlotContent, read_slot};
use crate::streams::Streams;
use flow_core_laws::Elem;
use os_io::Memory;
use std::sync::OnceLock;
use stream_match_layouts::Span;

/// Where the activations of a batch find what they read: the input, what the streams held before all batches, and the slots of all batches.
#[derive(Drop)]
pub struct Sources<'r, J: Meaning> {
    pub input: &'r [u8],
    pub before: &'r Streams,
    pub slots: &'r [OnceLock<SlotContent<J>>],
    pub ghost input_is: { input.now ≡ J.run.input },
    pub ghost as_many: { length before.now.firsts ≡ length before.now.elements },
    pub ghost before_is_meant: { HoldMeant J.run before.now },
}

impl<'r, J: Meaning> Sources<'r, J> {
    /// Reads what spans read, in place of what was read before. It answers whether all of it is there.
    pub(crate) fn read_all(
        &self,
        own: &Streams,
        from: &[u32],
        spans: &[Span],
        inputs: &mut Inputs,
    ) -> Result<bool, Memory>
        requires as_many { length own.now.firsts ≡ length own.now.elements }
        requires meant { HoldMeant J.run own.now }
        ensures { IfOk result (λ there. there ≡ true → AreRead (covered_by J.run spans.now) inputs.new) }
    {
        inputs.clear();
        for span in spans {
            if !span.write {
                let there = self.read(own, from, span, inputs)?;
                if !there {
                    return Ok(false);
                }
            }
        }
        Ok(true)
    }

    /// Reads what a span covers, if all of it is there.
    fn read(
        &self,
        own: &Streams,
        from: &[u32],
        span: &Span,
        inputs: &mut Inputs,
    ) -> Result<bool, Memory>
        requires as_many { length own.now.firsts ≡ length own.now.elements }
        requires meant { HoldMeant J.run own.now }
        ensures { IfOk result (λ there. there ≡ true → (cells : List (Option Elem)) → AreRead cells inputs.old
            → AreRead (cells ++ covered J.run span.now) inputs.new) }
    {
        let done = self.read_leading(own, from, span, inputs)?;
        self.read_rest(own, from, span, done, inputs)
    }

    /// Reads the first elements that a span covers, as far as one place has all of its positions. It answers how many elements it read.
    fn read_leading(
        &self,
        own: &Streams,
        from: &[u32],
        span: &Span,
        inputs: &mut Inputs,
    ) -> Result<u32, Memory>
        requires as_many { length own.now.firsts ≡ length own.now.elements }
        requires meant { HoldMeant J.run own.now }
        ensures few { IfOk result (λ done. done ≤ span.now.count) }
        ensures read { IfOk result (λ done. AreReadTo J.run span.now done inputs.old inputs.new) }
    {
        if span.stream == 0 {
            self.read_input(span, inputs)
        } else {
            self.read_at_once(own, from, span, inputs)
        }
    }

    /// Reads what a span of the input covers, if all of it is there. It answers how many elements it read.
    fn read_input(&self, span: &Span, inputs: &mut Inputs) -> Result<u32, Memory>
        requires { span.now.stream ≡ 0 }
        ensures few { IfOk result (λ done. done ≤ span.now.count) }
        ensures read { IfOk result (λ done. AreReadTo J.run span.now done inputs.old inputs.new) }
    {
        let held = self.input.len() as u64;
        if span.first > held || u64::from(span.count) > held - span.first {
            return Ok(0);
        }
        let first = span.first as usize;
        inputs.add_bytes(&self.input[first..first + span.count as usize])?;
        Ok(span.count)
    }

    /// Reads the first elements that a span covers, as long as they are values, from one place that has all of its positions. It answers how many
    /// elements it read.
    fn read_at_once(
        &self,
        own: &Streams,
        from: &[u32],
        span: &Span,
        inputs: &mut Inputs,
    ) -> Result<u32, Memory>
        requires as_many { length own.now.firsts ≡ length own.now.elements }
        requires meant { HoldMeant J.run own.now }
        ensures few { IfOk result (λ done. done ≤ span.now.count) }
        ensures read { IfOk result (λ done. AreReadTo J.run span.now done inputs.old inputs.new) }
    {
        let Some(elements) = self.find_all(own, from, span) else {
            return Ok(0);
        };
        let done = inputs.add_values(elements)?;
        // The span's count is as many as there are elements, so it is never the smaller one.
        Ok(span.count.min(done as u32))
    }

    /// Reads what a span covers after its first `done` elements, one by one, if all of it is there.
    fn read_rest(
        &self,
        own: &Streams,
        from: &[u32],
        span: &Span,
        done: u32,
        inputs: &mut Inputs,
    ) -> Result<bool, Memory>
        requires as_many { length own.now.firsts ≡ length own.now.elements }
        requires meant { HoldMeant J.run own.now }
        requires done { done ≤ span.now.count }
        ensures { IfOk result (λ there. there ≡ true → (was : Inputs) → AreReadTo J.run span.now done was inputs.old
            → AreReadTo J.run span.now span.now.count was inputs.new) }
    {
        for k in done..span.count {
            let Some(position) = span.first.checked_add(u64::from(k)) else {
                return Ok(false);
            };
            let Some(element) = self.find(own, from, span.stream, position) else {
                return Ok(false);
            };
            inputs.add(element)?;
        }
        Ok(true)
    }

    /// The elements at all positions that a span covers, from the first place that has all of these: what the batch wrote, what the streams held before,
    /// or one of these slots.
    fn find_all<'s>(
        &'s self,
        own: &'s Streams,
        from: &[u32],
        span: &Span,
    ) -> Option<&'s [Option<Elem>]>
        requires as_many { length own.now.firsts ≡ length own.now.elements }
        requires meant { HoldMeant J.run own.now }
        ensures { IfSome result (λ elements. AreFound J.run span.now elements.now) }
    {
        if let Some(elements) = own.find_all(span) {
            return Some(elements);
        }
        if let Some(elements) = self.before.find_all(span) {
            return Some(elements);
        }
        self.find_all_in_slots(from, span)
    }

    /// The elements at all positions that a span covers, from the first of these slots that has all of them.
    fn find_all_in_slots(&self, from: &[u32], span: &Span) -> Option<&[Option<Elem>]>
        ensures { IfSome result (λ elements. AreFound J.run span.now elements.now) }
    {
        for batch in from {
            if let Some(slot) = self.slots.get(*batch as usize) {
                if let Some(elements) = find_all_in_slot(slot, span) {
                    return Some(elements);
                }
            }
        }
        None
    }

    /// The element at a position of a stream, if it is there.
    fn find(&self, own: &Streams, from: &[u32], stream: u32, position: u64) -> Option<Elem>
        requires as_many { length own.now.firsts ≡ length own.now.elements }
        requires meant { HoldMeant J.run own.now }
        ensures { IfSome result (λ e. element_meant J.run stream position ≡ Some e) }
    {
        if stream == 0 {
            return self.find_in_input(position);
        }
        if let Some(element) = own.find(stream, position) {
            return Some(element);
        }
        if let Some(element) = self.before.find(stream, position) {
            return Some(element);
        }
        self.find_in_slots(from, stream, position)
    }

    /// The byte at a position of the input.
    fn find_in_input(&self, position: u64) -> Option<Elem>
        ensures { IfSome result (λ e. element_meant J.run 0 position ≡ Some e) }
    {
        if position >= self.input.len() as u64 {
            return None;
        }
        Some(Elem::Value(i32::from(self.input[position as usize])))
    }

    /// The element at a position of a stream, if one of these slots has it.
    fn find_in_slots(&self, from: &[u32], stream: u32, position: u64) -> Option<Elem>
        ensures { IfSome result (λ e. element_meant J.run stream position ≡ Some e) }
    {
        for batch in from {
            if let Some(slot) = self.slots.get(*batch as usize) {
                if let Some(element) = find_in_slot(slot, stream, position) {
                    return Some(element);
                }
            }
        }
        None
    }
}

/// The element at a position of a stream, if a slot is full and has it.
fn find_in_slot<J: Meaning>(
    slot: &OnceLock<SlotContent<J>>,
    stream: u32,
    position: u64,
) -> Option<Elem>
    ensures { IfSome result (λ e. element_meant J.run stream position ≡ Some e) }
{
    let content = read_slot(slot)?;
    content.outcome.wrote.find(stream, position)
}

/// The elements at all positions that a span covers, if a slot is full and has all of them.
fn find_all_in_slot<'s, J: Meaning>(
    slot: &'s OnceLock<SlotContent<J>>,
    span: &Span,
) -> Option<&'s [Option<Elem>]>
    ensures { IfSome result (λ elements. AreFound J.run span.now elements.now) }
{
    let content = read_slot(slot)?;
    content.outcome.wrote.find_all(span)
}
