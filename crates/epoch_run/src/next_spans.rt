ghost use Rattle.std.specs.Prelude.{◌≡◌, ◌∷◌, ◌++◌, ◌+◌, ◌^◌, ◌<◌, [], All, IfOk, List, OnOk, length};
ghost use Rattle.flow_core_laws.specs.declared.activation.Activation.{Activation};
ghost use Rattle.stream_match_layouts.specs.Cursors.{HasCursors};
ghost use Rattle.stream_match_layouts.specs.Layout.{IsLayoutOf, TakesMore};
ghost use Rattle.stream_match_layouts.specs.declared.layout.Layout.{Layout};
ghost use Rattle.stream_match_layouts.specs.declared.span.Span.{Span};
ghost use Rattle.epoch_run.specs.NextSpans.{FitBehind, joined, with_next, with_writer, with_writers};

use flow_core_laws::{Activation, Claim};
use os_io::{List, Memory};
use std::alloc::Global;
use stream_match::{Layout, Span};
use stream_match_layouts::{Cursors, Offsets};

/// The positions of activations that come next, apart from the layout that they are to stand behind: so they are worked out while
/// workers read that layout. What it holds is counted on from the layout, and is put behind it as it stands.
#[derive(Drop)]
pub(crate) struct NextSpans {
    /// A span for each claim, as the layout will have it.
    pub spans: List<Span>,
    /// Where the spans of each activation end, counted from the layout's first span on.
    pub starts: List<u32>,
    /// Where the streams stand behind these activations.
    pub cursors: Cursors,
}

impl NextSpans {
    /// The positions of no activations yet, behind a layout, with memory for this many activations of two claims each.
    pub(crate) fn behind(
        alloc: Global,
        layout: &Layout,
        activations: usize,
    ) -> Result<NextSpans, Memory>
        ensures { IfOk result (λ next. joined layout.now next ≡ layout.now) }
    {
        let mut next = NextSpans {
            spans: List::new(alloc),
            starts: List::new(alloc),
            cursors: layout.cursors.copy(alloc)?,
        };
        next.spans.reserve(activations.saturating_mul(2))?;
        next.starts.reserve(activations)?;
        Ok(next)
    }

    /// Adds the next activations, one by one. After `Memory` it may hold anything, and is to be given up.
    pub(crate) fn add_all(
        &mut self,
        layout: &Layout,
        activations: &[Activation],
    ) -> Result<(), Memory>
        requires { TakesMore (joined layout.now self.old) activations.now }
        ensures { OnOk result ((before : List Activation) → IsLayoutOf (joined layout.now self.old) before
            → IsLayoutOf (joined layout.now self.new) (before ++ activations.now)) }
    {
        for activation in activations {
            self.add(layout, activation)?;
        }
        Ok(())
    }

    /// Adds the next activation.
    fn add(&mut self, layout: &Layout, activation: &Activation) -> Result<(), Memory>
        requires { TakesMore (joined layout.now self.old) (activation.now ∷ []) }
        ensures { OnOk result ((before : List Activation) → IsLayoutOf (joined layout.now self.old) before
            → IsLayoutOf (joined layout.now self.new) (before ++ activation.now ∷ [])) }
    {
        let frame = (layout.starts.len() + self.starts.len() - 1) as u16;
        let mut offsets = Offsets::new();
        for claim in activation.claims.as_slice() {
            let offset = offsets.next(claim);
            self.take(frame, claim, offset)?;
        }
        self.starts
            .push((layout.spans.len() + self.spans.len()) as u32)?;
        Ok(())
    }

    /// Adds a claim of an activation, where its windows before this one take `offset` inputs or outputs.
    fn take(&mut self, frame: u16, claim: &Claim, offset: u32) -> Result<(), Memory>
        requires { HasCursors self.old.cursors claim.now }
        ensures { OnOk result (self.new ≡ with_next self.old frame claim.now offset) }
    {
        let span = self.cursors.take(frame, claim, offset);
        self.spans.push(span)?;
        Ok(())
    }

    /// Puts them behind a layout. After `Memory` the layout may hold anything, and the caller gives the run up.
    pub(crate) fn join_to(self, layout: &mut Layout) -> Result<(), Memory>
        requires { FitBehind layout.old self }
        ensures { OnOk result (layout.new ≡ joined layout.old self) }
    {
        let NextSpans {
            spans,
            starts,
            cursors,
        } = self;
        let first = layout.spans.len() as u32;
        add_writers(&mut layout.writers, first, spans.as_slice())?;
        layout.spans.extend_from_slice(spans.as_slice())?;
        layout.starts.extend_from_slice(starts.as_slice())?;
        layout.cursors = cursors;
        Ok(())
    }
}

/// Adds spans, which are numbered from a first one on, to the writers of their streams.
fn add_writers(writers: &mut List<List<u32>>, first: u32, spans: &[Span]) -> Result<(), Memory>
    requires few { first + length spans.now < 2 ^ 32 }
    requires exist { All (λ (s : Span). s.stream < length writers.old) spans.now }
    ensures { OnOk result (writers.new ≡ with_writers writers.old first spans.now) }
{
    let mut number = first;
    for span in spans {
        add_writer(writers, number, span)?;
        number += 1;
    }
    Ok(())
}

/// Adds a span of a number to the writers of its stream, if it writes.
fn add_writer(writers: &mut List<List<u32>>, number: u32, span: &Span) -> Result<(), Memory>
    requires { span.now.stream < length writers.old }
    ensures { OnOk result (writers.new ≡ with_writer writers.old number span.now) }
{
    if span.write {
        writers.as_mut_slice()[span.stream as usize].push(number)?;
    }
    Ok(())
}
