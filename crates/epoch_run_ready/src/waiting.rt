ghost use Rattle.std.specs.Prelude.{◌≡◌, ◌≢◌, ◌+◌, ◌^◌, ◌<◌, ◌≤◌, All, Bool, IfSome, List, false, length, max, true, slice_index, slice_index_or, ℕ};
ghost use Rattle.stream_match_layouts.specs.Layout.{IsLayout};
ghost use Rattle.stream_match_layouts.specs.Writers.{HasWriters, writers_on};
ghost use Rattle.stream_match_layouts.specs.declared.layout.Layout.{Layout};
ghost use Rattle.stream_match_layouts.specs.declared.span.Span.{Span};
ghost use Rattle.epoch_run_ready.specs.Lowering.{lowered};
ghost use Rattle.epoch_run_ready.specs.Unreached.{ReadBefore, WriteBehind};
ghost use Rattle.epoch_run_ready.specs.Waiting.{AreMissing, HasWaitingSpan, SpanWaits, written_until};

use crate::marking::is_marked;
use crate::missing::lower_one;
use stream_match_layouts::{Layout, Span};

/// Whether one of some spans reads behind positions of the streams, such as those behind all that is written.
pub(crate) fn read_behind(positions: &[u64], spans: &[Span]) -> bool
    requires exist { All (λ (s : Span). s.stream < length positions.now) spans.now }
    requires small { All (λ (s : Span). s.first < 2 ^ 62) spans.now }
    ensures { result ≡ false → ReadBefore positions.now spans.now }
{
    for span in spans {
        if !span.write && positions[span.stream as usize] < span.first + u64::from(span.count) {
            return true;
        }
    }
    false
}

/// Whether one of some spans writes before positions of the streams.
pub(crate) fn write_before(positions: &[u64], spans: &[Span]) -> bool
    requires exist { All (λ (s : Span). s.stream < length positions.now) spans.now }
    ensures { result ≡ false → WriteBehind positions.now spans.now }
{
    for span in spans {
        if span.write && span.first < positions[span.stream as usize] {
            return true;
        }
    }
    false
}

/// Whether one of some spans reads a stream other than the input.
pub(crate) fn reads_stream(spans: &[Span]) -> bool {
    for span in spans {
        if !span.write && span.stream != 0 {
            return true;
        }
    }
    false
}

/// Whether one of some spans reads behind all that is written.
pub(crate) fn reads_unwritten(layout: &Layout, spans: &[Span]) -> bool
    requires layout { IsLayout layout.now }
    requires exist { All (λ (s : Span). s.stream < length layout.now.writers) spans.now }
    requires small { All (λ (s : Span). s.first < 2 ^ 62) spans.now }
{
    for span in spans {
        if !span.write && written_until(layout, span.stream) < span.first + u64::from(span.count) {
            return true;
        }
    }
    false
}

/// Whether a span reads the first position of its stream whose element is known not to come. One that writes, from an activation that
/// waits, lowers that position.
#[inline(always)]
pub(crate) fn waits_or_lowers(missing: &mut [u64], span: Span) -> bool
    requires { span.stream < length missing.old }
    ensures waits { result ≡ true → (layout : Layout) (waits : List Bool) → AreMissing layout waits missing.old → SpanWaits layout waits span }
    ensures length { length missing.new ≡ length missing.old }
    ensures lowered { (stream : ℕ) → slice_index missing.new stream ≡ lowered stream span (slice_index missing.old stream) }
{
    if span.write {
        lower_one(missing, span);
        return false;
    }
    reads_at(missing, span)
}

/// Whether a span reads the first position of its stream whose element is known not to come.
fn reads_at(missing: &[u64], span: Span) -> bool
    requires { span.stream < length missing.now }
    ensures { result ≡ true → (layout : Layout) (waits : List Bool) → AreMissing layout waits missing.now → SpanWaits layout waits span }
{
    !span.write && covers(span, missing[span.stream as usize])
}

/// Whether one of the spans of an activation reads an element that can't come.
pub(crate) fn spans_wait(layout: &Layout, waits: &[bool], missing: &[u64], spans: &[Span]) -> bool
    requires layout { IsLayout layout.now }
    requires exist { All (λ (s : Span). s.stream < length layout.now.writers) spans.now }
    requires small { All (λ (s : Span). s.first < 2 ^ 62) spans.now }
    requires missing { AreMissing layout.now waits.now missing.now }
    ensures { result ≡ true → HasWaitingSpan layout.now waits.now spans.now }
{
    for span in spans {
        if span_waits(layout, waits, missing, *span) {
            return true;
        }
    }
    false
}

/// Whether a span is found to read an element that can't come. It is where it reads the first position of its stream whose element is known
/// not to come, and it isn't where it ends before that position. Where it begins behind that, all that it reads is looked at.
fn span_waits(layout: &Layout, waits: &[bool], missing: &[u64], span: Span) -> bool
    requires layout { IsLayout layout.now }
    requires exists { span.stream < length layout.now.writers }
    requires small { span.first < 2 ^ 62 }
    requires missing { AreMissing layout.now waits.now missing.now }
    ensures { result ≡ true → SpanWaits layout.now waits.now span }
{
    if span.write {
        return false;
    }
    let first = missing[span.stream as usize];
    if span.first + u64::from(span.count) <= first {
        return false;
    }
    if span.first <= first {
        return true;
    }
    waits_past(layout, waits, span)
}

/// Whether a span reads an element that can't come, by all that it reads: one behind all that is written, or one that comes from an
/// activation which is stuck.
fn waits_past(layout: &Layout, waits: &[bool], span: Span) -> bool
    requires layout { IsLayout layout.now }
    requires exists { span.stream < length layout.now.writers }
    requires small { span.first < 2 ^ 62 }
    requires reads { span.write ≡ false }
    ensures { result ≡ true → SpanWaits layout.now waits.now span }
{
    if span.count == 0 {
        return false;
    }
    if span.first + u64::from(span.count) > written_until(layout, span.stream) {
        return true;
    }
    if span.stream == 0 {
        return false;
    }
    waits_for_writer(layout, waits, span)
}

/// How many positions of a stream are written, or are the input's.
fn written_until(layout: &Layout, stream: u32) -> u64
    requires layout { IsLayout layout.now }
    requires exists { stream < length layout.now.writers }
    ensures { result ≡ written_until layout.now stream }
{
    if stream == 0 {
        u64::from(layout.input_len)
    } else {
        layout.cursors.writes.as_slice()[stream as usize]
    }
}

/// Whether a span reads an element from an activation which is stuck.
fn waits_for_writer(layout: &Layout, waits: &[bool], span: Span) -> bool
    requires writers { HasWriters layout.now span.stream }
    requires exists { span.stream < length layout.now.writers }
    requires small { span.first < 2 ^ 62 }
    requires reads { span.write ≡ false }
    requires no_input { span.stream ≢ 0 }
    ensures { result ≡ true → SpanWaits layout.now waits.now span }
{
    let mut place = first_place(layout, span);
    'writers: while let Some(stuck) = is_writer_stuck(layout, waits, span, place) {
        if stuck {
            return true;
        }
        place += 1;
    }
    false
}

/// The place of the first write span that a span has positions in common with: where the write spans are of one length, it is
/// told by the first position, and else it is found by halving.
fn first_place(layout: &Layout, span: Span) -> usize
    requires writers { HasWriters layout.now span.stream }
    requires exists { span.stream < length layout.now.writers }
    ensures { result ≤ length (writers_on layout.now span.stream) }
{
    let place = even_place(layout, span);
    if is_written_at(layout, span, place) {
        return place;
    }
    layout.first_behind(span.stream, span.first)
}

/// The place of the write span that has the first position of a span, where all are of one length.
fn even_place(layout: &Layout, span: Span) -> usize
    requires exists { span.stream < length layout.now.writers }
{
    let writers = layout.writers.as_slice()[span.stream as usize].len() as u64;
    let Some(written) = layout.cursors.writes.as_slice().get(span.stream as usize) else {
        return 0;
    };
    if *written == 0 {
        return 0;
    }
    match span.first.checked_mul(writers) {
        Some(product) => (product / *written) as usize,
        None => 0,
    }
}

/// Whether the write span at a place has the first position of a span.
fn is_written_at(layout: &Layout, span: Span, place: usize) -> bool
    requires writers { HasWriters layout.now span.stream }
    requires exists { span.stream < length layout.now.writers }
    ensures { result ≡ true → place < length (writers_on layout.now span.stream) }
{
    let Some(number) = layout.writer(span.stream, place) else {
        return false;
    };
    let writer = layout.span(number as usize);
    covers(writer, span.first)
}

/// Whether a span covers a position.
fn covers(span: Span, position: u64) -> bool
    ensures { result ≡ true → (span.first ≤ position) × (position < span.first + span.count) }
{
    span.first <= position && position - span.first < u64::from(span.count)
}

/// Whether the write span at a place comes from an activation which is stuck; nothing where it has no position in common
/// with a span that reads, or there is none at the place.
fn is_writer_stuck(layout: &Layout, waits: &[bool], span: Span, place: usize) -> Option<bool>
    requires writers { HasWriters layout.now span.stream }
    requires exists { span.stream < length layout.now.writers }
    requires small { span.first < 2 ^ 62 }
    requires reads { span.write ≡ false }
    requires no_input { span.stream ≢ 0 }
    ensures within { IfSome result (λ _. place < length (writers_on layout.now span.stream)) }
    ensures stuck { IfSome result (λ stuck. stuck ≡ true → SpanWaits layout.now waits.now span) }
{
    let number = layout.writer(span.stream, place)?;
    let writer = layout.span(number as usize);
    if meet(span, writer) {
        Some(is_stuck(waits, writer))
    } else {
        None
    }
}

/// Whether the activation of a span is stuck.
fn is_stuck(waits: &[bool], span: Span) -> bool
    ensures { result ≡ slice_index_or waits.now span.frame false }
{
    is_marked(waits, u32::from(span.frame))
}

/// Whether two spans of one stream have a position in common.
fn meet(one: Span, other: Span) -> bool
    requires small { one.first < 2 ^ 62 }
    requires other_small { other.first < 2 ^ 62 }
    ensures { result ≡ true → (max one.first other.first < one.first + one.count) × (max one.first other.first < other.first + other.count) }
{
    let first = one.first.max(other.first);
    first < one.first + u64::from(one.count) && first < other.first + u64::from(other.count)
}
