//! For each stream the first position found so far whose element can't come: at first the one behind all that is written, and then
//! where an activation writes that waits itself. A span that reads this position waits, and one that ends before it isn't known to.

ghost use Rattle.std.specs.Prelude.{◌≡◌, ◌<◌, ℕ, All, Bool, IfOk, List, length, slice_index};
ghost use Rattle.stream_match_layouts.specs.Layout.{IsLayout};
ghost use Rattle.stream_match_layouts.specs.declared.span.Span.{Span};
ghost use Rattle.epoch_run_ready.specs.Waiting.{AreMissing};
ghost use Rattle.epoch_run_ready.specs.Lowering.{IsLowered, lowered};

use os_io::Memory;
use std::alloc::Global;
use stream_match_layouts::{Layout, Span};

/// The positions behind all that is written, where nothing waits yet.
pub(crate) fn behind_all(alloc: Global, layout: &Layout) -> Result<Vec<u64>, Memory>
    requires layout { IsLayout layout.now }
    ensures { IfOk result (λ missing. (waits : List Bool) → AreMissing layout.now waits missing.items) }
{
    let mut missing = Vec::from_slice(alloc, layout.cursors.writes.as_slice())?;
    missing[0] = u64::from(layout.input_len);
    Ok(missing)
}

/// Lowers the positions of streams to where spans begin that write to them.
pub(crate) fn lower(missing: &mut [u64], spans: &[Span])
    requires { All (λ (s : Span). s.stream < length missing.old) spans.now }
    ensures length { length missing.new ≡ length missing.old }
    ensures lowered { (stream : ℕ) → IsLowered spans.now stream (slice_index missing.old stream) (slice_index missing.new stream) }
{
    for span in spans {
        lower_one(missing, *span);
    }
}

/// Lowers the position of a stream to where a span begins, if that writes to it.
pub(crate) fn lower_one(missing: &mut [u64], span: Span)
    requires { span.stream < length missing.old }
    ensures length { length missing.new ≡ length missing.old }
    ensures lowered { (stream : ℕ) → slice_index missing.new stream ≡ lowered stream span (slice_index missing.old stream) }
{
    if !span.write {
        return;
    }
    let stream = span.stream as usize;
    missing[stream] = missing[stream].min(span.first);
}
