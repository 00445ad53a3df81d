//! Bytes that stand for themselves in a report, and those that don't.

ghost use Rattle.std.specs.Prelude.{◌≡◌, ◌++◌, OnOk};
ghost use Rattle.std.specs.List.{flat_map};
ghost use Rattle.osvectors_cases.specs.Tap.{tap_byte};
ghost use Rattle.osvectors_cases.specs.Junit.{xml_byte};

use os_io::Memory;
use osview_text::Text;

/// What is written in place of a control character.
const CONTROL: &[u8] = b"?";

/// Adds a byte of a text in TAP.
fn add_tap_byte(told: &mut Text, byte: u8) -> Result<(), Memory>
    ensures { OnOk result (told.new ≡ told.old ++ tap_byte byte) }
{
    match byte {
        0..=31 => told.add(CONTROL),
        b'#' => told.add(b"\\#"),
        b'\\' => told.add(b"\\\\"),
        _ => told.add(&[byte]),
    }
}

/// Adds a byte of a text in XML.
fn add_xml_byte(told: &mut Text, byte: u8) -> Result<(), Memory>
    ensures { OnOk result (told.new ≡ told.old ++ xml_byte byte) }
{
    match byte {
        0..=31 => told.add(CONTROL),
        b'<' => told.add(b"&lt;"),
        b'>' => told.add(b"&gt;"),
        b'&' => told.add(b"&amp;"),
        b'"' => told.add(b"&quot;"),
        _ => told.add(&[byte]),
    }
}

/// Adds a text in TAP.
pub(crate) fn add_tap(told: &mut Text, text: &[u8]) -> Result<(), Memory>
    ensures { OnOk result (told.new ≡ told.old ++ flat_map tap_byte text.now) }
{
    for byte in text {
        add_tap_byte(told, *byte)?;
    }
    Ok(())
}

/// Adds a text in XML, which may stand between quotes.
pub(crate) fn add_xml(told: &mut Text, text: &[u8]) -> Result<(), Memory>
    ensures { OnOk result (told.new ≡ told.old ++ flat_map xml_byte text.now) }
{
    for byte in text {
        add_xml_byte(told, *byte)?;
    }
    Ok(())
}
