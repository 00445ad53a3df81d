//! A line of a text with a mark under some of its bytes.

ghost use Rattle.std.specs.Prelude.{◌≤◌, length};

use crate::lines::{goes_on, line_end, line_start};
use crate::spot::Spot;
use os_io::Memory;
use std::alloc::Global;
use std::io::Write;

/// How many bytes of a line are shown at most.
const SHOWN: usize = 160;

/// How many of them stand before the marked ones at most.
const BEFORE: usize = 120;

/// What is shown of a byte. One that a terminal would obey is a blank, but for tabs; where the line isn't UTF-8, each byte
/// beyond ASCII is a question mark.
fn display_of(byte: u8, is_text: bool) -> u8 {
    match byte {
        b'\t' => byte,
        0..=31 | 127 => b' ',
        128..=255 if !is_text => b'?',
        _ => byte,
    }
}

/// What stands under a byte that isn't marked, so that the mark stands where it should: under a tab a tab.
fn under(byte: u8) -> u8 {
    if byte == b'\t' { b'\t' } else { b' ' }
}

/// Adds a byte.
fn add(bytes: &mut Vec<u8>, byte: u8) -> Result<(), Memory> {
    match bytes.push(byte) {
        Ok(()) => Ok(()),
        Err(_) => Err(Memory),
    }
}

/// Adds what is shown of some bytes.
fn add_shown(bytes: &mut Vec<u8>, line: &[u8], is_text: bool) -> Result<(), Memory> {
    for byte in line {
        add(bytes, display_of(*byte, is_text))?;
    }
    Ok(())
}

/// Adds what stands under bytes before the marked ones.
fn add_under(bytes: &mut Vec<u8>, line: &[u8], is_text: bool) -> Result<(), Memory> {
    for byte in line {
        if !is_text || !goes_on(*byte) {
            add(bytes, under(*byte))?;
        }
    }
    Ok(())
}

/// Adds the mark under some bytes, one character at least.
fn add_mark(bytes: &mut Vec<u8>, marked: &[u8], is_text: bool) -> Result<(), Memory> {
    add(bytes, b'^')?;
    for byte in marked.iter().skip(1) {
        if !is_text || !goes_on(*byte) {
            add(bytes, b'~')?;
        }
    }
    Ok(())
}

/// The part of a line that is shown for some bytes of it: from where, and up to where.
fn window(line: &[u8], start: usize) -> (usize, usize)
    ensures order { result.0 ≤ result.1 }
    ensures within { result.1 ≤ length line.now }
{
    let from = start.saturating_sub(BEFORE).min(line.len());
    let to = from.saturating_add(SHOWN).min(line.len());
    (from, to)
}

/// The bytes from place `from` up to `to`, or none where not all of these are there.
fn part(bytes: &[u8], from: usize, to: usize) -> &[u8] {
    match bytes.get(from..to) {
        Some(part) => part,
        None => &[],
    }
}

/// Two lines with their line feeds: the line of a spot behind its number, and under it a mark below the spot. Of a long line only
/// a part is shown, with the spot in it.
pub fn excerpt(alloc: Global, text: &[u8], spot: Spot) -> Result<Vec<u8>, Memory>
    requires { spot.start ≤ length text.now }
{
    let begin = line_start(text, spot.start);
    let line = &text[begin..line_end(text, spot.start)];
    let start = spot.start - begin;
    let (from, to) = window(line, start);
    let line = &line[..to];
    let is_text = str::from_utf8(part(line, from, to)).is_ok();
    let end = spot.end.saturating_sub(begin).min(to);
    let mut bytes = Vec::new(alloc);
    add_number(&mut bytes, spot.line)?;
    add_shown(&mut bytes, part(line, from, to), is_text)?;
    bytes.extend_from_slice(b"\n      | ")?;
    add_under(&mut bytes, part(line, from, start), is_text)?;
    add_mark(&mut bytes, part(line, start, end), is_text)?;
    add(&mut bytes, b'\n')?;
    Ok(bytes)
}

/// Adds the number of a line, in a column of its own.
fn add_number(bytes: &mut Vec<u8>, line: u32) -> Result<(), Memory> {
    match write!(bytes, "{line:>5} | ") {
        Ok(()) => Ok(()),
        Err(_) => Err(Memory),
    }
}
