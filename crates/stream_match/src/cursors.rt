ghost use Rattle.std.specs.Prelude.{◌≡◌, ℕ, ◌<◌, min, All, List, IfOk, fold, length, map, slice_index};
ghost use Rattle.std.specs.List.{range_with_len};
ghost use Rattle.flow_core_laws.specs.declared.activation.Activation.{Activation};
ghost use Rattle.stream_match_layouts.specs.declared.span.Span.{Span};
ghost use Rattle.stream_match_layouts.specs.Layout.{IsLayout, IsLayoutOf};
ghost use Rattle.stream_match_layouts.specs.Spans.{frame_count};
ghost use Rattle.flow_core_epochs.specs.Epoch.{read_from};
ghost use Rattle.stream_match.specs.Cursors.{firsts, lowered};

use os_io::Memory;
use std::alloc::Global;
use stream_match_layouts::{Layout, Span};

/// For each stream the least position that frames, or activations behind the layout's, read.
pub fn read_cursors(alloc: Global, layout: &Layout, frames: &[u32]) -> Result<Vec<u64>, Memory>
    requires layout { IsLayout layout.now }
    requires exist { All (λ f. f < frame_count layout.now) frames.now }
    ensures { IfOk result (λ cursors. (activations : List Activation) → IsLayoutOf layout.now activations
        → cursors.items ≡ map (read_from activations frames.now) (range_with_len 0 (length layout.now.writers))) }
{
    let mut cursors = Vec::from_slice(alloc, layout.cursors.reads.as_slice())?;
    for frame in frames {
        lower(&mut cursors, layout.spans_of(*frame as usize));
    }
    Ok(cursors)
}

/// Lowers the cursors of streams to where spans begin that read them.
fn lower(cursors: &mut Vec<u64>, spans: &[Span])
    requires { All (λ (s : Span). s.stream < length cursors.old.items) spans.now }
    ensures length { length cursors.new.items ≡ length cursors.old.items }
    ensures lowered { (stream : ℕ) → slice_index cursors.new.items stream
        ≡ fold min (slice_index cursors.old.items stream) (firsts stream spans.now) }
{
    for span in spans {
        lower_one(cursors, *span);
    }
}

/// Lowers the cursor of a stream to where a span begins, if that reads it.
fn lower_one(cursors: &mut Vec<u64>, span: Span)
    requires { span.stream < length cursors.old.items }
    ensures length { length cursors.new.items ≡ length cursors.old.items }
    ensures lowered { (stream : ℕ) → slice_index cursors.new.items stream
        ≡ lowered stream span (slice_index cursors.old.items stream) }
{
    if span.write {
        return;
    }
    let stream = span.stream as usize;
    cursors[stream] = cursors[stream].min(span.first);
}
