ghost use Rattle.std.specs.Prelude.{◌≡◌, ◌<◌, ◌≤◌, ◌+◌, ◌-◌, ◌++◌, ◌^◌, OnOk, length, max};
ghost use Rattle.std.specs.List.{flat_map, range_with_len};
ghost use Rattle.flow_core_laws.specs.Window.{Window};
ghost use Rattle.osview_graph.specs.Drawing.{IsDrawn, run_of, shown_of};
ghost use Rattle.osview_graph.specs.Links.{activation_text, box, box_text, first_window, input_link, is_shown, link, link_at, links_of, outer_box};
ghost use Rattle.osview_graph.specs.Links.{positions_text, shown_text, window_links};
ghost use Rattle.stream_match_layouts.specs.Layout.{span_of};

use crate::drawn::Drawn;
use crate::ending::end_word;
use crate::labels::add_name;
use collector::producer;
use os_io::Memory;
use osview_text::Text;
use stream_match_layouts::Span;

/// The activations that are shown: from a number on, to the one before another.
#[derive(Clone, Copy, Debug)]
pub(crate) struct Range {
    pub(crate) first: u64,
    pub(crate) end: u64,
}

impl Range {
    /// Whether an activation is shown.
    fn shows(self, activation: u64) -> bool
        ensures { result ≡ is_shown (shown_of self) activation }
    {
        self.first <= activation && activation < self.end
    }
}

/// Adds what a box of an activation says.
fn add_box_text(told: &mut Text, drawn: &Drawn<'_>, activation: u64) -> Result<(), Memory>
    ensures { OnOk result (told.new ≡ told.old ++ box_text (run_of drawn.now) activation) }
{
    told.field(b"label=\"", activation)?;
    let line = drawn.line_at(u64::from(drawn.task_at(activation)));
    told.field(b": line ", u64::from(line))?;
    told.add(b"\\n")?;
    told.add(end_word(drawn.end_at(activation)))?;
    told.add(b"\"];\n")
}

/// Adds the box of an activation that is shown.
fn add_box(told: &mut Text, drawn: &Drawn<'_>, activation: u64) -> Result<(), Memory>
    ensures { OnOk result (told.new ≡ told.old ++ box (run_of drawn.now) activation) }
{
    told.field(b"  a", activation)?;
    told.add(b" [")?;
    add_box_text(told, drawn, activation)
}

/// Adds the dashed box of an activation, where it isn't shown.
fn add_outer_box(
    told: &mut Text,
    drawn: &Drawn<'_>,
    shown: Range,
    activation: u64,
) -> Result<(), Memory>
    ensures { OnOk result (told.new ≡ told.old ++ outer_box (run_of drawn.now) (shown_of shown) activation) }
{
    if shown.shows(activation) {
        return Ok(());
    }
    told.field(b"  a", activation)?;
    told.add(b" [style=dashed, ")?;
    add_box_text(told, drawn, activation)
}

/// Adds the label of an arrow.
fn add_positions(
    told: &mut Text,
    drawn: &Drawn<'_>,
    stream: u32,
    first: u64,
    end: u64,
) -> Result<(), Memory>
    ensures { OnOk result (told.new ≡ told.old ++ positions_text (run_of drawn.now) stream first end) }
{
    told.add(b" [label=\"")?;
    add_name(told, drawn.text, drawn.names, stream)?;
    told.field(b"[", first)?;
    told.field(b"..", end)?;
    told.add(b"]\"];\n")
}

/// Adds the arrow from a window that writes to one that reads, from a position on.
fn add_link(
    told: &mut Text,
    drawn: &Drawn<'_>,
    shown: Range,
    reader: Span,
    writer: Span,
    position: u64,
) -> Result<(), Memory>
    requires small { reader.first + reader.count < 2 ^ 64 }
    requires first { position ≡ max reader.first writer.first }
    requires read { position < reader.first + reader.count }
    requires written { position < writer.first + writer.count }
    ensures { (r w : Window) → reader ≡ span_of r → writer ≡ span_of w
        → OnOk result (told.new ≡ told.old ++ link (run_of drawn.now) (shown_of shown) r w) }
{
    add_outer_box(told, drawn, shown, u64::from(writer.frame))?;
    told.field(b"  a", u64::from(writer.frame))?;
    told.field(b" -> a", u64::from(reader.frame))?;
    let read = reader.first + u64::from(reader.count) - position;
    let written = u64::from(writer.count) - (position - writer.first);
    add_positions(
        told,
        drawn,
        reader.stream,
        position,
        position + read.min(written),
    )
}

/// Adds an arrow where a position is the first one of those that its producer gives a window.
fn add_link_at(
    told: &mut Text,
    drawn: &Drawn<'_>,
    shown: Range,
    reader: Span,
    position: u64,
) -> Result<(), Memory>
    requires drawn { IsDrawn drawn.now }
    requires exists { reader.stream < length drawn.now.layout.now.writers }
    requires small { reader.first + reader.count < 2 ^ 64 }
    requires read { position < reader.first + reader.count }
    ensures { (r : Window) → reader ≡ span_of r
        → OnOk result (told.new ≡ told.old ++ link_at (run_of drawn.now) (shown_of shown) r position) }
{
    let Some(writer) = producer(drawn.layout, reader.stream, position) else {
        return Ok(());
    };
    if position == reader.first.max(writer.first) {
        add_link(told, drawn, shown, reader, writer, position)
    } else {
        Ok(())
    }
}

/// Adds the arrows from those that write what a window reads.
fn add_writers(told: &mut Text, drawn: &Drawn<'_>, shown: Range, reader: Span) -> Result<(), Memory>
    requires drawn { IsDrawn drawn.now }
    requires exists { reader.stream < length drawn.now.layout.now.writers }
    requires small { reader.first + reader.count < 2 ^ 64 }
    ensures { (r : Window) → reader ≡ span_of r → OnOk result (told.new ≡ told.old
        ++ flat_map (link_at (run_of drawn.now) (shown_of shown) r) (range_with_len r.first r.claim.horizon)) }
{
    for position in reader.first..reader.first + u64::from(reader.count) {
        add_link_at(told, drawn, shown, reader, position)?;
    }
    Ok(())
}

/// Adds the arrow from the input to a window that reads some of it.
fn add_input_link(told: &mut Text, drawn: &Drawn<'_>, reader: Span) -> Result<(), Memory>
    requires { reader.first + reader.count < 2 ^ 64 }
    ensures { (r : Window) → reader ≡ span_of r → OnOk result (told.new ≡ told.old ++ input_link (run_of drawn.now) r) }
{
    let input_len = u64::from(drawn.layout.input_len);
    if reader.first < input_len {
        told.field(b"  input -> a", u64::from(reader.frame))?;
        let end = reader.first + u64::from(reader.count);
        add_positions(told, drawn, 0, reader.first, end.min(input_len))
    } else {
        Ok(())
    }
}

/// Adds the arrows to a window, if it reads.
fn add_links(told: &mut Text, drawn: &Drawn<'_>, shown: Range, span: Span) -> Result<(), Memory>
    requires drawn { IsDrawn drawn.now }
    requires exists { span.stream < length drawn.now.layout.now.writers }
    requires small { span.first + span.count < 2 ^ 64 }
    ensures { (w : Window) → span ≡ span_of w
        → OnOk result (told.new ≡ told.old ++ window_links (run_of drawn.now) (shown_of shown) w) }
{
    if span.write {
        Ok(())
    } else if span.stream == 0 {
        add_input_link(told, drawn, span)
    } else {
        add_writers(told, drawn, shown, span)
    }
}

/// Adds the arrows to the windows from a number on, to the one before another.
fn add_windows(
    told: &mut Text,
    drawn: &Drawn<'_>,
    shown: Range,
    first: usize,
    end: usize,
) -> Result<(), Memory>
    requires drawn { IsDrawn drawn.now }
    requires ordered { first ≤ end }
    requires exist { end ≤ length drawn.now.layout.now.spans }
    ensures { OnOk result (told.new ≡ told.old
        ++ flat_map (links_of (run_of drawn.now) (shown_of shown)) (range_with_len first (end - first))) }
{
    for number in first..end {
        add_links(told, drawn, shown, drawn.layout.span(number))?;
    }
    Ok(())
}

/// Where the windows of an activation begin.
fn first_window(drawn: &Drawn<'_>, activation: u64) -> usize
    requires drawn { IsDrawn drawn.now }
    requires exists { activation ≤ length drawn.now.activations.now }
    ensures { result ≡ first_window (run_of drawn.now) activation }
{
    drawn.layout.starts.as_slice()[activation as usize] as usize
}

/// Adds the box of an activation, and the arrows to its windows.
fn add_activation(
    told: &mut Text,
    drawn: &Drawn<'_>,
    shown: Range,
    activation: u64,
) -> Result<(), Memory>
    requires drawn { IsDrawn drawn.now }
    requires exists { activation < length drawn.now.activations.now }
    ensures { OnOk result (told.new ≡ told.old ++ activation_text (run_of drawn.now) (shown_of shown) activation) }
{
    add_box(told, drawn, activation)?;
    let first = first_window(drawn, activation);
    let end = first_window(drawn, activation + 1);
    add_windows(told, drawn, shown, first, end)
}

/// Adds the activations that are shown.
pub(crate) fn add_shown(told: &mut Text, drawn: &Drawn<'_>, shown: Range) -> Result<(), Memory>
    requires { IsDrawn drawn.now }
    ensures { OnOk result (told.new ≡ told.old ++ shown_text (run_of drawn.now) (shown_of shown)) }
{
    let end = shown
        .end
        .min(drawn.activations.len() as u64)
        .max(shown.first);
    for activation in shown.first..end {
        add_activation(told, drawn, shown, activation)?;
    }
    Ok(())
}
