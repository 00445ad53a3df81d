ghost use Rattle.std.specs.Prelude.{◌≡◌, ◌<◌, List, length, slice_get};
ghost use Rattle.flow_core_laws.specs.declared.activation.Activation.{Activation};
ghost use Rattle.flow_core_laws.specs.Window.{producer_number};
ghost use Rattle.stream_match_layouts.specs.Layout.{IsLayout, IsLayoutOf};
ghost use Rattle.stream_match_layouts.specs.Writers.{writers_on, span_at, HasWriters, FirstBehind};

use crate::layout::Layout;
use crate::span::Span;

impl Layout {
    /// The number of the write span that covers a position of a stream, found by halving.
    pub fn producer(&self, stream: u32, position: u64) -> Option<u32>
        requires layout { IsLayout self.now }
        requires exists { stream < length self.now.writers }
        ensures { (activations : List Activation) → IsLayoutOf self.now activations
            → result ≡ producer_number activations stream position }
    {
        let place = self.first_behind(stream, position);
        let number = self.writer(stream, place)?;
        if self.span(number as usize).first <= position {
            Some(number)
        } else {
            None
        }
    }

    /// The place among the write spans of a stream of the first one that reaches past a position.
    pub fn first_behind(&self, stream: u32, position: u64) -> usize
        requires exists { stream < length self.now.writers }
        requires writers { HasWriters self.now stream }
        ensures { FirstBehind self.now stream position result }
    {
        let writers = self.writers.as_slice()[stream as usize].as_slice();
        let mut low = 0;
        let mut high = writers.len();
        while low < high {
            let middle = low + (high - low) / 2;
            let span = self.span(writers[middle] as usize);
            if span.first + u64::from(span.count) <= position {
                low = middle + 1;
            } else {
                high = middle;
            }
        }
        low
    }

    /// The number of the write span at a place among those of a stream.
    pub fn writer(&self, stream: u32, place: usize) -> Option<u32>
        requires { stream < length self.now.writers }
        ensures { result ≡ slice_get (writers_on self.now stream) place }
    {
        self.writers.as_slice()[stream as usize]
            .as_slice()
            .get(place)
            .copied()
    }

    /// A span by its number.
    pub fn span(&self, number: usize) -> Span
        requires { number < length self.now.spans }
        ensures { result ≡ span_at self.now number }
    {
        self.spans.as_slice()[number]
    }

    /// A span by its number, if there is one.
    pub fn get_span(&self, number: u32) -> Option<Span>
        ensures { result ≡ slice_get self.now.spans number }
    {
        self.spans.as_slice().get(number as usize).copied()
    }
}
