ghost use Rattle.std.specs.Prelude.{◌≡◌, ◌++◌, OnOk};
ghost use Rattle.osview_graph.specs.Arrows.{span_text};
ghost use Rattle.osview_sentences.specs.Names.{called, stream_text};

use os_io::Memory;
use osview_sentences::{StreamName, name_of};
use osview_text::Text;

/// Adds what a stream is called that has this name, or is one of the array that has it.
fn add_called(told: &mut Text, text: &[u8], name: StreamName, stream: u32) -> Result<(), Memory>
    ensures { OnOk result (told.new ≡ told.old ++ called text.now stream name) }
{
    told.add(name.bytes(text))?;
    if name.count == 1 {
        return Ok(());
    }
    told.field(b"[", u64::from(stream.saturating_sub(name.first)))?;
    told.add(b"]")
}

/// Adds what a stream is called.
pub(crate) fn add_name(
    told: &mut Text,
    text: &[u8],
    names: &[StreamName],
    stream: u32,
) -> Result<(), Memory>
    ensures { OnOk result (told.new ≡ told.old ++ stream_text text.now names.now stream) }
{
    match name_of(names, stream) {
        Some(name) => add_called(told, text, name, stream),
        None => told.number(u64::from(stream)),
    }
}

/// Adds numbers from one to another.
pub(crate) fn add_span(told: &mut Text, low: u32, high: u32) -> Result<(), Memory>
    ensures { OnOk result (told.new ≡ told.old ++ span_text low high) }
{
    told.number(u64::from(low))?;
    if low == high {
        return Ok(());
    }
    told.field(b" to ", u64::from(high))
}
