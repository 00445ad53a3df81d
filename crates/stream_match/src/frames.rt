ghost use Rattle.std.specs.Prelude.{◌≡◌, ◌^◌, ◌<◌, sum_by};
ghost use Rattle.stream_match_layouts.specs.declared.span.Span.{Span};
ghost use Rattle.stream_match_layouts.specs.Layout.{IsLayout};
ghost use Rattle.stream_match_layouts.specs.Spans.{frame_count, spans_of, read_count, write_count};

use crate::pieces::reads;
use stream_match_layouts::{Layout, Span};

/// How many elements spans read and write.
#[derive(Clone, Copy)]
pub(crate) struct Tally {
    pub(crate) inputs: u32,
    pub(crate) outputs: u32,
}

/// The tally of the spans of a frame.
pub(crate) fn frame_tally(layout: &Layout, frame: usize) -> Tally
    requires layout { IsLayout layout.now }
    requires exists { frame < frame_count layout.now }
    ensures inputs { result.inputs ≡ sum_by read_count (spans_of layout.now frame) }
    ensures outputs { result.outputs ≡ sum_by write_count (spans_of layout.now frame) }
{
    tally_of(layout.spans_of(frame))
}

/// How many elements spans read, and how many they write.
fn tally_of(spans: &[Span]) -> Tally
    requires { sum_by (λ (s : Span). s.count) spans.now < 2 ^ 32 }
    ensures inputs { result.inputs ≡ sum_by read_count spans.now }
    ensures outputs { result.outputs ≡ sum_by write_count spans.now }
{
    let mut inputs = 0;
    let mut outputs = 0;
    for span in spans {
        inputs += reads(*span);
        outputs += writes(*span);
    }
    Tally { inputs, outputs }
}

/// How many positions a span writes.
fn writes(span: Span) -> u32
    ensures { result ≡ write_count span }
{
    if span.write { span.count } else { 0 }
}
