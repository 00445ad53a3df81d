ghost use Rattle.std.specs.Prelude.{◌≡◌, ◌<◌, All, List, length};
ghost use Rattle.std.specs.List.{flat_map, list_any};
ghost use Rattle.std.specs.Option.{option_map};
ghost use Rattle.flow_core_laws.specs.declared.activation.Activation.{Activation};
ghost use Rattle.flow_core_laws.specs.Window.{producer};
ghost use Rattle.stream_match_layouts.specs.Layout.{IsLayout, IsLayoutOf};
ghost use Rattle.stream_match_layouts.specs.Spans.{frame_count};
ghost use Rattle.collector.specs.Walking.{IsSpanIn, read_places};
ghost use Rattle.wait_certs.specs.Searching.{is_produced_by, reads_from};

use stream_match_layouts::{Layout, Span};

/// Whether an activation reads an element that another one should write.
pub(crate) fn awaits(layout: &Layout, frame: u32, writer: u32) -> bool
    requires layout { IsLayout layout.now }
    requires exists { frame < frame_count layout.now }
    ensures { (activations : List Activation) → IsLayoutOf layout.now activations
        → result ≡ reads_from activations frame writer }
{
    any_reads(layout, layout.spans_of(frame as usize), writer)
}

/// Whether one of some spans reads such an element.
fn any_reads(layout: &Layout, spans: &[Span], writer: u32) -> bool
    requires layout { IsLayout layout.now }
    requires spans { All (IsSpanIn layout.now) spans.now }
    ensures { (activations : List Activation) → IsLayoutOf layout.now activations
        → result ≡ list_any (is_produced_by activations writer) (flat_map read_places spans.now) }
{
    for span in spans {
        if reads(layout, *span, writer) {
            return true;
        }
    }
    false
}

/// Whether a span reads such an element.
fn reads(layout: &Layout, span: Span, writer: u32) -> bool
    requires layout { IsLayout layout.now }
    requires span { IsSpanIn layout.now span }
    ensures { (activations : List Activation) → IsLayoutOf layout.now activations
        → result ≡ list_any (is_produced_by activations writer) (read_places span) }
{
    if span.write {
        return false;
    }
    let end = span.first + u64::from(span.count);
    for position in span.first..end {
        if is_written_by(layout, span.stream, position, writer) {
            return true;
        }
    }
    false
}

/// Whether an activation should write the element at a position.
fn is_written_by(layout: &Layout, stream: u32, position: u64, writer: u32) -> bool
    requires layout { IsLayout layout.now }
    requires exists { stream < length layout.now.writers }
    ensures { (activations : List Activation) → IsLayoutOf layout.now activations
        → result ≡ is_produced_by activations writer (record { stream = stream; position = position }) }
{
    match producing(layout, stream, position) {
        Some(frame) => frame == writer,
        None => false,
    }
}

/// The activation whose write claim covers a position, if there is one.
fn producing(layout: &Layout, stream: u32, position: u64) -> Option<u32>
    requires layout { IsLayout layout.now }
    requires exists { stream < length layout.now.writers }
    ensures { (activations : List Activation) → IsLayoutOf layout.now activations
        → result ≡ option_map (λ w. w.activation) (producer activations stream position) }
{
    let number = layout.producer(stream, position)?;
    let span = layout.get_span(number)?;
    Some(u32::from(span.frame))
}
