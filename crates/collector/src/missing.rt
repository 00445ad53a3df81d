ghost use Rattle.std.specs.Prelude.{◌≡◌, ◌<◌, ◌≤◌, ◌+◌, ◌-◌, false, All, IfSome, List, find, length};
ghost use Rattle.std.specs.List.{flat_map, range_with_len};
ghost use Rattle.std.specs.Option.{option_map};
ghost use Rattle.flow_core_laws.specs.declared.activation.Activation.{Activation};
ghost use Rattle.flow_core_laws.specs.Outcome.{has_end_at};
ghost use Rattle.flow_core_laws.specs.Window.{producer};
ghost use Rattle.stream_match_layouts.specs.Layout.{IsLayout, IsLayoutOf, span_of};
ghost use Rattle.stream_match_layouts.specs.Spans.{frame_count};
ghost use Rattle.collector.specs.Missing.{WritesAt, missing};
ghost use Rattle.collector.specs.Walking.{IsSpanIn, Reaches, is_gap, is_missing, first_gap, read_places};

use flow_core_laws::{Ends, Place};
use stream_match_layouts::{Layout, Span};

/// An element that isn't there, which a starved activation waits for.
#[derive(Clone, Copy, Debug, PartialEq, Eq)]
pub struct Missing {
    pub stream: u32,
    pub position: u64,
    /// The activation whose write claim covers the position, if there is one. It is starved too.
    pub producer: Option<u32>,
}

/// The first missing element of an activation, by the ends so far: the first one of its input windows, by clause
/// item and then by position, that isn't there; none exactly where each of them is there. It takes no memory.
pub fn first_missing(layout: &Layout, ends: &Ends, frame: u32) -> Option<Missing>
    requires layout { IsLayout layout.now }
    requires exists { frame < frame_count layout.now }
    ensures missing { (activations : List Activation) → IsLayoutOf layout.now activations
        → result ≡ missing activations layout.now.input_len ends.now.ends frame }
{
    let gap = missing_among(layout, ends, layout.spans_of(frame as usize))?;
    Some(Missing {
        stream: gap.stream,
        position: gap.position,
        producer: producing(layout, gap),
    })
}

/// The first position that spans read whose element isn't there.
fn missing_among(layout: &Layout, ends: &Ends, spans: &[Span]) -> Option<Place>
    requires layout { IsLayout layout.now }
    requires spans { All (IsSpanIn layout.now) spans.now }
    ensures exists { IfSome result (λ gap. gap.stream < length layout.now.writers) }
    ensures missing { (activations : List Activation) → IsLayoutOf layout.now activations
        → result ≡ find (is_missing activations layout.now.input_len ends.now.ends) (flat_map read_places spans.now) }
{
    for span in spans {
        if !span.write {
            if let Some(position) = missing_position(layout, ends, *span) {
                return Some(Place {
                    stream: span.stream,
                    position,
                });
            }
        }
    }
    None
}

/// The first position of a span whose element isn't there.
fn missing_position(layout: &Layout, ends: &Ends, span: Span) -> Option<u64>
    requires layout { IsLayout layout.now }
    requires span { IsSpanIn layout.now span }
    requires reads { span.write ≡ false }
    ensures { (activations : List Activation) → IsLayoutOf layout.now activations
        → result ≡ first_gap activations layout.now.input_len ends.now.ends span.stream span.first span.count }
{
    let end = span.first + u64::from(span.count);
    if span.stream != 0 {
        return missing_between(layout, ends, span.stream, span.first, end);
    }
    let position = span.first.max(u64::from(layout.input_len));
    if position < end { Some(position) } else { None }
}

/// The first position of a stream, from one up to another, whose element isn't there. It goes from the end of one
/// producer to the next.
fn missing_between(layout: &Layout, ends: &Ends, stream: u32, first: u64, end: u64) -> Option<u64>
    requires layout { IsLayout layout.now }
    requires exists { stream < length layout.now.writers }
    requires produced { 0 < stream }
    requires ordered { first ≤ end }
    ensures { (activations : List Activation) → IsLayoutOf layout.now activations
        → result ≡ find (is_gap activations layout.now.input_len ends.now.ends stream) (range_with_len first (end - first)) }
{
    let mut position = first;
    while position < end {
        match covered_to(layout, ends, stream, position) {
            Some(next) => position = next.min(end),
            None => return Some(position),
        }
    }
    None
}

/// Where the window of an element's producer ends, if that activation has an end.
fn covered_to(layout: &Layout, ends: &Ends, stream: u32, position: u64) -> Option<u64>
    requires layout { IsLayout layout.now }
    requires exists { stream < length layout.now.writers }
    requires produced { 0 < stream }
    ensures { (activations : List Activation) → IsLayoutOf layout.now activations
        → Reaches activations layout.now.input_len ends.now.ends stream position result }
{
    let span = producer(layout, stream, position)?;
    if has_end(ends, u32::from(span.frame)) {
        Some(span.first + u64::from(span.count))
    } else {
        None
    }
}

/// The activation whose write claim covers a gap, if there is one.
fn producing(layout: &Layout, gap: Place) -> Option<u32>
    requires layout { IsLayout layout.now }
    requires exists { gap.stream < length layout.now.writers }
    ensures { (activations : List Activation) → IsLayoutOf layout.now activations
        → result ≡ option_map (λ w. w.activation) (producer activations gap.stream gap.position) }
{
    let span = producer(layout, gap.stream, gap.position)?;
    Some(u32::from(span.frame))
}

/// The write span that covers a position of a stream.
pub fn producer(layout: &Layout, stream: u32, position: u64) -> Option<Span>
    requires layout { IsLayout layout.now }
    requires exists { stream < length layout.now.writers }
    ensures covers { IfSome result (WritesAt stream position) }
    ensures writer { (activations : List Activation) → IsLayoutOf layout.now activations
        → result ≡ option_map span_of (producer activations stream position) }
{
    let number = layout.producer(stream, position)?;
    layout.get_span(number)
}

/// Whether an activation has an end.
pub fn has_end(ends: &Ends, frame: u32) -> bool
    ensures { result ≡ has_end_at ends.now.ends frame }
{
    ends.end_of(frame).is_some()
}
