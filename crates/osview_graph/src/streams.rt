ghost use Rattle.std.specs.Prelude.{◌≡◌, ◌<◌, ◌++◌, ◌+◌, ◌^◌, IfOk, OnOk};
ghost use Rattle.osview_graph.specs.Drawing.{IsDrawn, run_of};
ghost use Rattle.osview_graph.specs.Streams.{elements_text, ellipse, ellipse_if_used, ellipses, has_read, read, window_count, element_count, written_by};
ghost use Rattle.osview_graph.specs.Tables.{AreStreamCounts, newly_behind, read_to, table};
ghost use Rattle.flow_core_laws.specs.Window.{Window};
ghost use Rattle.stream_match_layouts.specs.Layout.{span_of};

use crate::drawn::Drawn;
use crate::ending::has_run;
use crate::labels::add_name;
use crate::tables::{raise, row, set_row, zeros};
use collector::has_done;
use os_io::Memory;
use osview_text::Text;
use std::alloc::Global;
use stream_match_layouts::Span;

/// What is counted of streams.
#[derive(Drop)]
pub(crate) struct StreamCounts {
    /// How many windows there are on each stream.
    pub(crate) windows: Vec<u64>,
    /// How many elements of each stream are there.
    pub(crate) written: Vec<u64>,
    /// How many of those elements were read.
    pub(crate) read: Vec<u64>,
}

/// How many windows are on each stream.
fn count_windows(alloc: Global, drawn: &Drawn<'_>) -> Result<Vec<u64>, Memory>
    requires { IsDrawn drawn.now }
    ensures { IfOk result (λ counts. counts.items
        ≡ table (window_count (run_of drawn.now)) (drawn.now.streams)) }
{
    let mut counts = zeros(alloc, drawn.streams as usize)?;
    for span in drawn.layout.spans.as_slice() {
        raise(&mut counts, u64::from(span.stream), 1);
    }
    Ok(counts)
}

/// How many elements a window wrote.
fn written_by(drawn: &Drawn<'_>, span: Span) -> u64
    ensures { (w : Window) → span ≡ span_of w → result ≡ written_by (run_of drawn.now) w }
{
    if span.write && has_done(&drawn.end_at(u64::from(span.frame))) {
        u64::from(span.count)
    } else {
        0
    }
}

/// How many elements of each stream are there.
fn count_written(alloc: Global, drawn: &Drawn<'_>) -> Result<Vec<u64>, Memory>
    requires { IsDrawn drawn.now }
    ensures { IfOk result (λ counts. counts.items ≡ table (element_count (run_of drawn.now)) (drawn.now.streams)) }
{
    let mut counts = zeros(alloc, drawn.streams as usize)?;
    for span in drawn.layout.spans.as_slice() {
        raise(
            &mut counts,
            u64::from(span.stream),
            written_by(drawn, *span),
        );
    }
    set_row(&mut counts, 0, u64::from(drawn.layout.input_len));
    Ok(counts)
}

/// Whether a window reads for an activation that ran.
fn has_read(drawn: &Drawn<'_>, span: Span) -> bool
    ensures { (w : Window) → span ≡ span_of w → result ≡ has_read (run_of drawn.now) w }
{
    !span.write && has_run(drawn.end_at(u64::from(span.frame)))
}

/// How many elements a window reads for the first time, where those before a position were read before.
fn newly_read(drawn: &Drawn<'_>, span: Span, before: u64) -> u64
    requires { span.first + span.count < 2 ^ 64 }
    ensures { (w : Window) → span ≡ span_of w → result ≡ newly_behind (run_of drawn.now) w before }
{
    if has_read(drawn, span) {
        let end = span.first + u64::from(span.count);
        end.saturating_sub(span.first.max(before))
    } else {
        0
    }
}

/// Before which position elements were read with a window, where before it those before another one were.
fn read_to(drawn: &Drawn<'_>, span: Span, before: u64) -> u64
    requires { span.first + span.count < 2 ^ 64 }
    ensures { (w : Window) → span ≡ span_of w → result ≡ read_to (run_of drawn.now) w before }
{
    if has_read(drawn, span) {
        let end = span.first + u64::from(span.count);
        end.max(before)
    } else {
        before
    }
}

/// How many elements of each stream were read. The windows of a stream begin in order, so that of those behind the next one's first
/// position just those are read that stand before the greatest end so far.
fn count_read(alloc: Global, drawn: &Drawn<'_>) -> Result<Vec<u64>, Memory>
    requires { IsDrawn drawn.now }
    ensures { IfOk result (λ counts. counts.items ≡ table (read (run_of drawn.now)) (drawn.now.streams)) }
{
    let mut counts = zeros(alloc, drawn.streams as usize)?;
    let mut reached = zeros(alloc, drawn.streams as usize)?;
    for span in drawn.layout.spans.as_slice() {
        let stream = u64::from(span.stream);
        let before = row(&reached, stream);
        let newly = newly_read(drawn, *span, before);
        let to = read_to(drawn, *span, before);
        raise(&mut counts, stream, newly);
        set_row(&mut reached, stream, to);
    }
    Ok(counts)
}

/// Counts what became of the elements of streams.
fn count_streams(alloc: Global, drawn: &Drawn<'_>) -> Result<StreamCounts, Memory>
    requires { IsDrawn drawn.now }
    ensures { IfOk result (AreStreamCounts (run_of drawn.now)) }
{
    let windows = count_windows(alloc, drawn)?;
    let written = count_written(alloc, drawn)?;
    let read = count_read(alloc, drawn)?;
    Ok(StreamCounts {
        windows,
        written,
        read,
    })
}

/// Adds how many elements of a stream were written and read.
fn add_elements(told: &mut Text, stream: u32, written: u64, read: u64) -> Result<(), Memory>
    ensures { OnOk result (told.new ≡ told.old ++ elements_text stream written read) }
{
    told.number(written)?;
    told.add(b" written")?;
    if stream == 1 {
        return Ok(());
    }
    told.field(b", ", read)?;
    told.field(b" read, ", written.saturating_sub(read))?;
    told.add(b" left")
}

/// Adds the ellipse of a stream.
fn add_ellipse(
    told: &mut Text,
    drawn: &Drawn<'_>,
    counts: &StreamCounts,
    stream: u32,
) -> Result<(), Memory>
    requires counted { AreStreamCounts (run_of drawn.now) counts.now }
    requires exists { stream < drawn.now.streams }
    ensures { OnOk result (told.new ≡ told.old ++ ellipse (run_of drawn.now) stream) }
{
    told.field(b"  stream", u64::from(stream))?;
    told.add(b" [shape=ellipse, label=\"")?;
    add_name(told, drawn.text, drawn.names, stream)?;
    told.add(b"\\n")?;
    let at = u64::from(stream);
    add_elements(
        told,
        stream,
        row(&counts.written, at),
        row(&counts.read, at),
    )?;
    told.add(b"\"];\n")
}

/// Adds the ellipse of a stream on which there are windows.
fn add_used(
    told: &mut Text,
    drawn: &Drawn<'_>,
    counts: &StreamCounts,
    stream: u32,
) -> Result<(), Memory>
    requires counted { AreStreamCounts (run_of drawn.now) counts.now }
    requires exists { stream < drawn.now.streams }
    ensures { OnOk result (told.new ≡ told.old ++ ellipse_if_used (run_of drawn.now) stream) }
{
    if row(&counts.windows, u64::from(stream)) == 0 {
        Ok(())
    } else {
        add_ellipse(told, drawn, counts, stream)
    }
}

/// Adds the ellipses of the streams on which there are windows.
pub(crate) fn add_ellipses(alloc: Global, told: &mut Text, drawn: &Drawn<'_>) -> Result<(), Memory>
    requires { IsDrawn drawn.now }
    ensures { OnOk result (told.new ≡ told.old ++ ellipses (run_of drawn.now)) }
{
    let counts = count_streams(alloc, drawn)?;
    for stream in 0..drawn.streams {
        add_used(told, drawn, &counts, stream)?;
    }
    Ok(())
}
