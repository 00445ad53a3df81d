//! A text of ten bytes and fewer, in parts of four, pushed at once or byte by byte.

ghost use Rattle.osparts_parts.specs.Terms.{AreLawful};

use os_io::{List, Memory};
use osparts_parts::{PartBuffer, Terms};
use std::alloc::Global;
use std::test::Fail;

/// Adds a part to a text, with a bar after it.
fn add_bar(part: Option<Vec<u8>>, text: &mut List<u8>) -> Result<(), Memory> {
    if let Some(bytes) = part {
        text.extend_from_slice(bytes.as_slice())?;
        text.push(b'|')?;
    }
    Ok(())
}

/// Pushes a piece of a text, as far as there is room for it, and adds the part that is whole then.
fn push_piece(
    alloc: Global,
    buffer: &mut PartBuffer,
    piece: &[u8],
    text: &mut List<u8>,
) -> Result<usize, Memory> {
    let count = buffer.push(piece)?;
    add_bar(buffer.next_part(alloc)?, text)?;
    Ok(count)
}

/// The parts of an input, each with a bar after it, where at most `most` bytes are pushed at once.
fn bars(alloc: Global, terms: Terms, input: &[u8], most: usize) -> Result<List<u8>, Memory>
    requires { AreLawful terms }
{
    let mut buffer = PartBuffer::new(alloc, terms)?;
    let mut text = List::new(alloc);
    let mut rest = input;
    'pieces: for _ in 0..20 {
        let piece = &rest[..rest.len().min(most)];
        let count = push_piece(alloc, &mut buffer, piece, &mut text)?.min(rest.len());
        rest = &rest[count..];
    }
    add_bar(buffer.last_part(), &mut text)?;
    Ok(text)
}

fn terms(overlap: u32) -> Terms {
    Terms {
        part: 4,
        overlap,
        skip: 0,
        state: 0,
    }
}

/// Whether the parts are these, in whatever pieces the input comes.
fn are_parts(alloc: Global, overlap: u32, input: &[u8], wanted: &[u8]) -> Result<bool, Memory> {
    let terms = terms(overlap);
    if terms.check().is_err() {
        return Ok(false);
    }
    let whole = bars(alloc, terms, input, 100)?;
    let by_bytes = bars(alloc, terms, input, 1)?;
    Ok(whole.as_slice() == wanted && by_bytes.as_slice() == wanted)
}

#[test]
fn parts_are_cut_where_they_are_full(rt: HostRuntime) -> Result<(), Fail> {
    assert!(rt; are_parts(rt.alloc(), 0, b"", b"|")?);
    assert!(rt; are_parts(rt.alloc(), 0, b"a", b"a|")?);
    assert!(rt; are_parts(rt.alloc(), 0, b"abc", b"abc|")?);
    assert!(rt; are_parts(rt.alloc(), 0, b"abcd", b"abcd|")?);
    assert!(rt; are_parts(rt.alloc(), 0, b"abcde", b"abcd|e|")?);
    assert!(rt; are_parts(rt.alloc(), 0, b"abcdefghij", b"abcd|efgh|ij|")?);
    Ok(())
}

#[test]
fn overlaps_stand_in_front_of_parts(rt: HostRuntime) -> Result<(), Fail> {
    assert!(rt; are_parts(rt.alloc(), 3, b"", b"|")?);
    assert!(rt; are_parts(rt.alloc(), 3, b"abcd", b"abcd|")?);
    assert!(rt; are_parts(rt.alloc(), 3, b"abcde", b"abcd|bcde|")?);
    assert!(rt; are_parts(rt.alloc(), 1, b"abcdefghij", b"abcd|defgh|hij|")?);
    Ok(())
}

#[test]
fn a_buffer_has_room_for_one_part(rt: HostRuntime) -> Result<(), Fail> {
    let terms = terms(1);
    if terms.check().is_ok() {
        let mut buffer = PartBuffer::new(rt.alloc(), terms)?;
        assert!(rt; buffer.room() == 4);
        assert!(rt; buffer.push(b"abc")? == 3);
        assert!(rt; buffer.room() == 1);
        assert!(rt; buffer.next_part(rt.alloc())?.is_none());
        assert!(rt; buffer.push(b"defg")? == 1);
        assert!(rt; buffer.next_part(rt.alloc())?.is_some());
        assert!(rt; buffer.room() == 4);
    }
    Ok(())
}
