ghost use Rattle.std.specs.Prelude.{◌≡◌, ◌≢◌, ◌≤◌, ◌<◌, List, length, IsErrOf, OnOk, OnErr};
ghost use Rattle.std.specs.Io.KnownBytes.{append_known};
ghost use Rattle.flow_core_laws.specs.declared.activation.Activation.{Activation};
ghost use Rattle.os_io.specs.Counts.{HasRisen};
ghost use Rattle.os_io.specs.Writing.{TookProperPrefix};
ghost use Rattle.stream_match_layouts.specs.Layout.{IsLayout, IsLayoutOf};
ghost use Rattle.stream_match_layouts.specs.Spans.{frame_count};
ghost use Rattle.collector.specs.Buffering.{GoesOn};
ghost use Rattle.collector.specs.Report.{activation_line, activation_lines, report};
ghost use Rattle.collector.specs.Written.{written};

use crate::line_buffer::LineBuffer;
use crate::missing::first_missing;
use flow_core_laws::{ControlEnd, Elem, Ends};
use os_io::{Sink, WriteError};
use stream_match_layouts::Layout;

/// Writes the report of a run: a line for each activation that isn't Done, in control order, the line of the
/// control program, and that of the output. It takes no memory.
pub fn report_lines<S: Sink>(
    layout: &Layout,
    ends: &Ends,
    control: &ControlEnd,
    sink: &mut S,
) -> Result<(), WriteError>
    requires layout { IsLayout layout.now }
    // What was taken.
    ensures ok { (activations : List Activation) → IsLayoutOf layout.now activations → OnOk result
        (S.taken sink.new ≡ append_known (S.taken sink.old) (report activations layout.now.input_len ends.now control.now)) }
    ensures err { (activations : List Activation) → IsLayoutOf layout.now activations → OnErr result
        (TookProperPrefix (S.taken sink.old) (S.taken sink.new) (report activations layout.now.input_len ends.now control.now)) }
    // The cause of each error.
    ensures failed { IsErrOf result WriteError.Failed →
        HasRisen (S.faults sink.old) (S.faults sink.new) }
    ensures stuck { IsErrOf result WriteError.Stuck →
        HasRisen (S.empty_takes sink.old) (S.empty_takes sink.new) }

    // The counts otherwise.
    ensures no_fault { result ≢ Err WriteError.Failed → S.faults sink.new ≡ S.faults sink.old }
    ensures not_stuck { result ≢ Err WriteError.Stuck →
        S.empty_takes sink.new ≡ S.empty_takes sink.old }
    ensures faults_kept { S.faults sink.old ≤ S.faults sink.new }
    ensures empty_takes_kept { S.empty_takes sink.old ≤ S.empty_takes sink.new }
{
    let mut buffer = LineBuffer::new();
    activation_lines(layout, ends, &mut buffer, sink)?;
    buffer.control(sink, control)?;
    let count = written_length(ends.output.as_slice());
    buffer.output(sink, count as u64, layout.cursors.writes.as_slice()[1])?;
    buffer.flush(sink)
}

/// Adds the lines of the activations that aren't Done, in control order.
fn activation_lines<S: Sink>(
    layout: &Layout,
    ends: &Ends,
    buffer: &mut LineBuffer,
    sink: &mut S,
) -> Result<(), WriteError>
    requires { IsLayout layout.now }
    ensures { (activations : List Activation) → IsLayoutOf layout.now activations
        → GoesOn S.Sink sink.old sink.new buffer.old buffer.new (activation_lines activations layout.now.input_len ends.now.ends
        (frame_count layout.now)) result }
{
    for frame in 0..layout.starts.len() as u32 - 1 {
        activation_line(layout, ends, frame, buffer, sink)?;
    }
    Ok(())
}

/// Adds the line of an activation, if it isn't Done.
fn activation_line<S: Sink>(
    layout: &Layout,
    ends: &Ends,
    frame: u32,
    buffer: &mut LineBuffer,
    sink: &mut S,
) -> Result<(), WriteError>
    requires layout { IsLayout layout.now }
    requires exists { frame < frame_count layout.now }
    ensures { (activations : List Activation) → IsLayoutOf layout.now activations
        → GoesOn S.Sink sink.old sink.new buffer.old buffer.new (activation_line activations layout.now.input_len ends.now.ends frame) result }
{
    if let Some(end) = ends.end_of(frame) {
        return buffer.ended(sink, frame, end);
    }
    match first_missing(layout, ends, frame) {
        Some(missing) => buffer.starved(sink, frame, missing),
        None => Ok(()),
    }
}

/// How many values stand before the first element that isn't there or is poison.
pub fn written_length(elements: &[Option<Elem>]) -> usize
    ensures { result ≡ length (written elements.now) }
{
    for (count, element) in elements.iter().enumerate() {
        let Some(Elem::Value(_)) = element else {
            return count;
        };
    }
    elements.len()
}
