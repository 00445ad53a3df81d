//! The examples and the kernels in short epochs beside one epoch.

use crate::compiled::compiled;
use crate::ways::{Job, Ways, is_as_in_one_epoch, run_whole};
use epoch_run::RunResult;
use example_texts::{
    ADLER, ADPCM, BANK, CRC, CURVE, DCT, DELTA, DIVIDE, FIRST, GAIN, NOISE, OVERLAP, RICE, SQUEEZE,
    UNADPCM, UNBANK, UNDCT, UNDELTA, UNNOISE, UNRICE, UNSQUEEZE, UNWAVELET, WAITING, WAVELET,
};
use flow_core_laws::{Elem, TaskEnd};
use kernels::{BROADCAST, INVERT, LIFT, PIPELINE, SMOOTH, UNLIFT};
use std::alloc::Global;
use std::process::Abort;
use std::thread::Threads;

/// How many turns an activation has: as many as in a run of the command, and more than any of these takes.
const TURNS: u64 = 1_000_000;

/// A text, how many activations it creates, and how many of these are done.
type Example = (&'static str, usize, usize);

/// A coder and its decoder, each with how many activations it creates, all of which are done.
type Pair = (&'static str, usize, &'static str, usize);

/// `count` bytes, which rise ever faster, modulo 251.
fn bytes(rt: &impl Abort, alloc: Global, count: u32) -> Vec<u8> {
    let mut bytes = Vec::new(alloc);
    for at in 0..count {
        let byte = (at.wrapping_mul(at) / 11).wrapping_add(246) % 251;
        bytes.push(byte as u8).expect(rt, "memory");
    }
    bytes
}

/// The bytes that a run wrote, up to the first one that isn't there.
fn written(rt: &impl Abort, alloc: Global, run: &RunResult) -> Vec<u8> {
    let mut bytes = Vec::new(alloc);
    for element in run.ends.output.as_slice() {
        let Some(Elem::Value(value)) = *element else {
            return bytes;
        };
        bytes.push((value & 255) as u8).expect(rt, "memory");
    }
    bytes
}

/// How many activations of a run are done.
fn done_of(run: &RunResult) -> usize {
    let mut count = 0usize;
    for end in run.ends.ends.as_slice() {
        if *end == Some(TaskEnd::Done) {
            count = count.saturating_add(1);
        }
    }
    count
}

/// Asks that a run created `created` activations, of which `done` are done.
fn has_created(rt: &impl Abort, run: &RunResult, created: usize, done: usize, text: &str) {
    let right = run.ends.ends.len() == created && done_of(run) == done;
    assert!(rt; right, "{text}");
}

/// Asks that a program creates `created` activations, of which `done` are done, and that it comes to the same in each way as in one epoch;
/// gives what it writes.
fn example<R: Threads + Sync + Abort>(
    rt: &R,
    alloc: Global,
    text: &str,
    input: &[u8],
    created: usize,
    done: usize,
    ways: Ways,
) -> Vec<u8> {
    let code = compiled(rt, alloc, text).expect(rt, text);
    let job = Job {
        text,
        code: &code,
        input,
        turns: TURNS,
    };
    let whole = run_whole(rt, alloc, job);
    has_created(rt, &whole, created, done, text);
    is_as_in_one_epoch(rt, alloc, job, &whole, ways);
    written(rt, alloc, &whole)
}

/// Asks what `example` asks of each of some programs over an input.
fn examples<R: Threads + Sync + Abort>(rt: &R, alloc: Global, rows: &[Example], input: &[u8]) {
    for (text, created, done) in rows {
        example(rt, alloc, *text, input, *created, *done, Ways::Each);
    }
}

/// Asks what `example` asks of a coder over an input, and of its decoder over what the coder writes.
fn pair<R: Threads + Sync + Abort>(rt: &R, alloc: Global, row: Pair, input: &[u8], ways: Ways) {
    let (coder, coded, decoder, decoded) = row;
    let codes = example(rt, alloc, coder, input, coded, coded, ways);
    example(rt, alloc, decoder, codes.as_slice(), decoded, decoded, ways);
}

/// Asks what `example` asks of some coders with their decoders.
fn pairs<R: Threads + Sync + Abort>(rt: &R, alloc: Global, rows: &[Pair], input: &[u8]) {
    for row in rows {
        pair(rt, alloc, *row, input, Ways::Each);
    }
}

/// The kernels over 24 bytes, and the examples that have an activation or two for each byte. One byte is 0, by which the first of these divides.
/// Those of the second one wait for one another, so that none has an end.
#[test]
fn kernels_and_what_fails_end_in_each_way_as_in_one_epoch(rt: HostRuntime) {
    let input = bytes(&rt, rt.alloc(), 24);
    let rows = [
        (INVERT, 6, 6),
        (SMOOTH, 22, 22),
        (LIFT, 6, 6),
        (UNLIFT, 6, 6),
        (PIPELINE, 24, 24),
        (BROADCAST, 96, 96),
        (DIVIDE, 24, 23),
        (WAITING, 48, 0),
    ];
    examples(&rt, rt.alloc(), &rows, input.as_slice());
}

/// The examples that nothing takes back, over 800 bytes: one block of 4,096, or 13 of 64.
#[test]
fn examples_are_done_in_each_way(rt: HostRuntime) {
    let input = bytes(&rt, rt.alloc(), 800);
    let rows = [
        (ADLER, 4, 4),
        (CRC, 3, 3),
        (CURVE, 14, 14),
        (GAIN, 14, 14),
        (FIRST, 1, 1),
        (OVERLAP, 3, 3),
    ];
    examples(&rt, rt.alloc(), &rows, input.as_slice());
}

/// The coders over 800 bytes, which are 13 blocks of 64, 25 of 32, four of 256 behind a seed, or three whole ones of 256; and their decoders over
/// what these write.
#[test]
fn coders_and_decoders_are_done_in_each_way(rt: HostRuntime) {
    let input = bytes(&rt, rt.alloc(), 800);
    let rows = [
        (ADPCM, 14, UNADPCM, 14),
        (WAVELET, 13, UNWAVELET, 13),
        (BANK, 51, UNBANK, 76),
        (DELTA, 14, UNDELTA, 14),
        (DCT, 13, UNDCT, 13),
        (NOISE, 5, UNNOISE, 5),
        (RICE, 3, UNRICE, 3),
    ];
    pairs(&rt, rt.alloc(), &rows, input.as_slice());
}

/// The one coder whose blocks are strips of 4,096 bytes each.
#[test]
fn strips_are_squeezed_in_few_ways(rt: HostRuntime) {
    let input = bytes(&rt, rt.alloc(), 12_300);
    let row = (SQUEEZE, 3, UNSQUEEZE, 3);
    pair(&rt, rt.alloc(), row, input.as_slice(), Ways::Few);
}
