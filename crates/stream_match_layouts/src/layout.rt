ghost use Rattle.std.specs.Prelude.{◌≡◌, [], ◌∷◌, ◌++◌, ◌<◌, ◌≤◌, List, IfOk, OnOk, length, slice_set, slice_index_or};
ghost use Rattle.flow_core_laws.specs.declared.activation.Activation.{Activation};
ghost use Rattle.stream_match_layouts.specs.Layout.{IsLayoutOf, TakesMore};
ghost use Rattle.stream_match_layouts.specs.Adding.{HasRoom, with_claim};

use crate::cursors::Cursors;
use crate::offsets::Offsets;
use crate::span::Span;
use flow_core_laws::{Activation, Claim};
use os_io::{List, Memory};
use std::alloc::Global;

/// For how many spans a layout has room from the start. An allocator hands so large a block out untouched, and what isn't used of it costs
/// nothing; a list that grows from less is copied several times.
const ROOM: usize = 16_384;

/// The positions of a list of activations, in control order.
#[derive(Debug, Drop)]
pub struct Layout {
    /// A span for each claim: by activation, and within one by clause order.
    pub spans: List<Span>,
    /// The first span of each activation, and one more entry for the end.
    pub starts: List<u32>,
    /// For each stream the numbers of its write spans, in order of position.
    pub writers: List<List<u32>>,
    /// Where the streams stand behind all claims.
    pub cursors: Cursors,
    /// How many elements the input has.
    pub input_len: u32,
}

impl Layout {
    /// The layout of no activation, over `streams` streams: 0 is the input, 1 the output.
    pub fn new(alloc: Global, streams: u32, input_len: u32) -> Result<Layout, Memory>
        requires { 2 ≤ streams }
        ensures empty { IfOk result (λ layout. IsLayoutOf layout []) }
        ensures streams { IfOk result (λ layout. length layout.writers ≡ streams) }
        ensures input { IfOk result (λ layout. layout.input_len ≡ input_len) }
    {
        let mut layout = Layout {
            spans: List::new(alloc),
            starts: List::new(alloc),
            writers: List::new(alloc),
            cursors: Cursors::new(alloc, streams)?,
            input_len,
        };
        layout.spans.reserve(ROOM)?;
        layout.starts.push(0)?;
        layout.writers.reserve(streams as usize)?;
        for _ in 0..streams {
            layout.writers.push(List::new(alloc))?;
        }
        Ok(layout)
    }

    /// Adds the next activations. After `Memory` the layout may hold anything, and is to be given up.
    pub fn append(&mut self, activations: &[Activation]) -> Result<(), Memory>
        requires { TakesMore self.old activations.now }
        ensures added { OnOk result ((before : List Activation) → IsLayoutOf self.old before → IsLayoutOf self.new (before ++ activations.now)) }
        ensures streams { OnOk result (length self.new.writers ≡ length self.old.writers) }
        ensures input { OnOk result (self.new.input_len ≡ self.old.input_len) }
    {
        self.make_room(activations)?;
        self.add_all(activations)
    }

    /// Takes the memory for the next activations at once.
    fn make_room(&mut self, activations: &[Activation]) -> Result<(), Memory>
        ensures { self.new ≡ self.old }
    {
        self.spans.reserve(claims_of(activations))?;
        self.starts.reserve(activations.len())
    }

    /// Adds the next activations, one by one.
    fn add_all(&mut self, activations: &[Activation]) -> Result<(), Memory>
        requires { TakesMore self.old activations.now }
        ensures added { OnOk result ((before : List Activation) → IsLayoutOf self.old before → IsLayoutOf self.new (before ++ activations.now)) }
        ensures streams { OnOk result (length self.new.writers ≡ length self.old.writers) }
        ensures input { OnOk result (self.new.input_len ≡ self.old.input_len) }
    {
        for activation in activations {
            self.add(activation)?;
        }
        Ok(())
    }

    /// Adds the next activation.
    fn add(&mut self, activation: &Activation) -> Result<(), Memory>
        requires { TakesMore self.old (activation.now ∷ []) }
        ensures added { OnOk result ((before : List Activation) → IsLayoutOf self.old before → IsLayoutOf self.new (before ++ activation.now ∷ [])) }
        ensures streams { OnOk result (length self.new.writers ≡ length self.old.writers) }
        ensures input { OnOk result (self.new.input_len ≡ self.old.input_len) }
    {
        let frame = (self.starts.len() - 1) as u16;
        let mut offsets = Offsets::new();
        for claim in activation.claims.as_slice() {
            let offset = offsets.next(claim);
            self.take(frame, claim, offset)?;
        }
        self.starts.push(self.spans.len() as u32)?;
        Ok(())
    }

    /// Adds a claim of an activation, where its windows before this one take `offset` inputs or outputs.
    #[inline(always)]
    fn take(&mut self, frame: u16, claim: &Claim, offset: u32) -> Result<(), Memory>
        requires { HasRoom self.old claim.now }
        ensures { OnOk result (self.new ≡ with_claim self.old frame claim.now offset) }
    {
        if claim.write {
            let number = self.spans.len() as u32;
            add_writer(&mut self.writers, claim.stream as usize, number)?;
        }
        let span = self.cursors.take(frame, claim, offset);
        self.spans.push(span)?;
        Ok(())
    }
}

/// How many claims the activations have, as far as a `usize` goes.
fn claims_of(activations: &[Activation]) -> usize {
    let mut claims: usize = 0;
    for activation in activations {
        claims = claims.saturating_add(activation.claims.len());
    }
    claims
}

/// Adds a writer of a stream.
fn add_writer(writers: &mut List<List<u32>>, stream: usize, number: u32) -> Result<(), Memory>
    requires { stream < length writers.old }
    ensures { OnOk result (writers.new ≡ slice_set writers.old stream (slice_index_or writers.old stream [] ++ number ∷ [])) }
{
    writers.as_mut_slice()[stream].push(number)?;
    Ok(())
}
