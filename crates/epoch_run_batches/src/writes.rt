//! Writing what an activation came to into streams.

ghost use Rattle.std.specs.Prelude.{◌≡◌, ◌≢◌, ◌+◌, ◌-◌, ◌++◌, ◌≤◌, None, OnOk, length, replicate, true};
ghost use Rattle.epoch_run_batches.specs.Meant.{AreMeant, HoldMeant, Run};
ghost use Rattle.epoch_run_batches.specs.Writes.{AreWritten, HaveOutputs, IsWritten, written_through};

use crate::streams::Streams;
use flow_core_laws::{Elem, output_element};
use os_io::{List, Memory};
use stream_match_layouts::Span;

impl Streams {
    /// Writes what an activation came to through its spans: poison, where there is a root, and else its outputs. After `Memory` the
    /// streams are to be given up.
    pub(crate) fn write_all(
        &mut self,
        spans: &[Span],
        root: Option<u32>,
        outputs: &[i32],
    ) -> Result<(), Memory>
        requires as_many { length self.old.firsts ≡ length self.old.elements }
        requires outputs { HaveOutputs root outputs.now spans.now }
        ensures as_many { OnOk result (length self.new.firsts ≡ length self.new.elements) }
        ensures meant { OnOk result ((run : Run) → AreWritten run root outputs.now spans.now → HoldMeant run self.old
            → HoldMeant run self.new) }
    {
        for span in spans {
            self.write(span, root, outputs)?;
        }
        Ok(())
    }

    /// Writes what an activation came to through a span; nothing, where it reads.
    fn write(&mut self, span: &Span, root: Option<u32>, outputs: &[i32]) -> Result<(), Memory>
        requires as_many { length self.old.firsts ≡ length self.old.elements }
        requires outputs { root ≡ None → span.now.write ≡ true → span.now.offset + span.now.count ≤ length outputs.now }
        ensures as_many { OnOk result (length self.new.firsts ≡ length self.new.elements) }
        ensures meant { OnOk result ((run : Run) → IsWritten run root outputs.now span.now → HoldMeant run self.old
            → HoldMeant run self.new) }
    {
        let stream = span.stream as usize;
        if !span.write {
            return Ok(());
        }
        if stream == 0 {
            return Ok(());
        }
        if stream >= self.elements.len() {
            return Ok(());
        }
        let first = self.firsts.as_slice()[stream];
        write_on(
            &mut self.elements.as_mut_slice()[stream],
            first,
            span,
            root,
            outputs,
        )?;
        Ok(())
    }
}

/// Writes what an activation came to through a span to the elements of its stream from a position on; nothing, where these begin
/// behind the span or reach into it.
fn write_on(
    elements: &mut List<Option<Elem>>,
    first: u64,
    span: &Span,
    root: Option<u32>,
    outputs: &[i32],
) -> Result<(), Memory>
    requires write { span.now.write ≡ true }
    requires other { span.now.stream ≢ 0 }
    requires outputs { root ≡ None → span.now.offset + span.now.count ≤ length outputs.now }
    ensures { OnOk result ((run : Run) → IsWritten run root outputs.now span.now → AreMeant run span.now.stream first elements.old
        → AreMeant run span.now.stream first elements.new) }
{
    if span.first < first {
        return Ok(());
    }
    let at = span.first - first;
    if elements.len() as u64 > at {
        return Ok(());
    }
    fill_to(elements, at)?;
    add_written(elements, span, root, outputs)?;
    Ok(())
}

/// Adds elements that aren't there, up to a place.
fn fill_to(elements: &mut List<Option<Elem>>, at: u64) -> Result<(), Memory>
    requires { length elements.old ≤ at }
    ensures { OnOk result (elements.new ≡ elements.old ++ replicate (at - length elements.old) None) }
{
    for _ in elements.len() as u64..at {
        elements.push(None)?;
    }
    Ok(())
}

/// Adds what an activation writes through a span.
fn add_written(
    elements: &mut List<Option<Elem>>,
    span: &Span,
    root: Option<u32>,
    outputs: &[i32],
) -> Result<(), Memory>
    requires { root ≡ None → span.now.offset + span.now.count ≤ length outputs.now }
    ensures { OnOk result (elements.new ≡ elements.old ++ written_through root outputs.now span.now) }
{
    elements.reserve(span.count as usize)?;
    for k in 0..span.count {
        let place = span.offset as usize + k as usize;
        elements.push(Some(output_element(root, outputs, place)))?;
    }
    Ok(())
}
