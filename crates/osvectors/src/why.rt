//! Why a case did not pass, in one line.

use crate::blame::line_of_byte;
use crate::judging::Judged;
use hex::encode;
use os_io::Memory;
use osvectors_cases::{Expected, Verdict};
use osview_text::Text;
use sha2::{Digest, Sha256};
use std::alloc::Global;
use std::thread::Threads;

/// What was run: the words, and the bytes of the program and of the input.
#[derive(Clone, Copy)]
pub(crate) struct Run<'a> {
    pub(crate) words: &'a [String],
    pub(crate) program: &'a [u8],
    pub(crate) input: &'a [u8],
}

/// The bytes before the first line feed.
fn first_line(bytes: &[u8]) -> &[u8] {
    for (n, byte) in bytes.iter().enumerate() {
        if *byte == b'\n' {
            return &bytes[..n];
        }
    }
    bytes
}

/// Adds what stands at a place of bytes: a byte, or their end.
fn add_byte_at(told: &mut Text, bytes: &[u8], place: usize) -> Result<(), Memory> {
    match bytes.get(place) {
        Some(byte) => told.number(u64::from(*byte)),
        None => told.add(b"the end"),
    }
}

/// Adds from which byte on the output isn't the wanted one.
fn add_difference(
    told: &mut Text,
    output: &[u8],
    wanted: &[u8],
    place: usize,
) -> Result<(), Memory> {
    told.field(b"byte ", place as u64)?;
    told.add(b" is ")?;
    add_byte_at(told, output, place)?;
    told.add(b", wanted ")?;
    add_byte_at(told, wanted, place)
}

/// The line of the first byte that differs, and of who wrote it.
fn tell_difference<R: Threads + Sync>(
    rt: &R,
    alloc: Global,
    run: &Run<'_>,
    output: &[u8],
    wanted: &[u8],
    place: usize,
) -> Result<Vec<u8>, Memory> {
    let mut told = Text::new(alloc);
    add_difference(&mut told, output, wanted, place)?;
    let writer = line_of_byte(rt, alloc, run.words, run.program, run.input, place)?;
    if !writer.bytes().is_empty() {
        told.add(b"; osout ")?;
        told.add(first_line(writer.bytes()))?;
    }
    Ok(told.into_bytes())
}

/// The line of a run that has another status than 0, with the first line of its report.
fn tell_status(alloc: Global, status: u8, report: &[u8]) -> Result<Vec<u8>, Memory> {
    let mut told = Text::new(alloc);
    told.field(b"status ", u64::from(status))?;
    let line = first_line(report);
    if !line.is_empty() {
        told.add(b": ")?;
        told.add(line)?;
    }
    Ok(told.into_bytes())
}

/// The line of an output with another sum.
fn tell_sum(alloc: Global, output: &[u8]) -> Result<Vec<u8>, Memory> {
    let mut told = Text::new(alloc);
    let digits = encode(alloc, Sha256::digest(output).as_slice())?;
    told.add(b"the output is sha256:")?;
    told.add(digits.as_bytes())?;
    told.field(b", bytes ", output.len() as u64)?;
    Ok(told.into_bytes())
}

/// Why a run did not pass; nothing where it did.
pub(crate) fn why_of<R: Threads + Sync>(
    rt: &R,
    alloc: Global,
    run: &Run<'_>,
    judged: &Judged,
    wanted: &Expected,
) -> Result<Vec<u8>, Memory> {
    let output = judged.output.bytes();
    match judged.verdict {
        Verdict::Passed => Ok(Vec::new(alloc)),
        Verdict::Ended(status) => tell_status(alloc, status, judged.report.bytes()),
        Verdict::OtherSum => tell_sum(alloc, output),
        Verdict::Differs(place) => match wanted {
            Expected::Bytes(bytes) => {
                tell_difference(rt, alloc, run, output, bytes.as_slice(), place)
            }
            Expected::Sum(_) => Ok(Vec::new(alloc)),
        },
    }
}
